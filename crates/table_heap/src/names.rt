//! The map of names. It takes no memory but where it says so.
ghost use Rattle.std.specs.Prelude.{◌≡◌, ◌≤◌, ◌+◌, ◌<◌, IfNone};
ghost use Rattle.std.specs.Option.{option_copied};
ghost use Rattle.std.specs.FinMap as finite;
ghost use Rattle.indexmap.specs.IndexMap.{spare};
ghost use Rattle.dt_model.specs.State.{is_table, has_name};
ghost use Rattle.table_heap.specs.Names.{bounds_of};
ghost use Rattle.table_heap.specs.State.{plain_bound, names_of};

use crate::bound::Bound;
use dt_base::Text;
use indexmap::IndexMap;

pub(crate) type Names = IndexMap<String, Bound>;

/// Whether some name is bound to the table of this number. It looks at the names in order.
#[tactic(auto, using(crate::proofs::Plain::scan_has_name))]
pub(crate) fn has_name(names: &Names, number: u64) -> bool
    ensures { result ≡ has_name (names_of (bounds_of names.now.entries)) number }
{
    if names.len() == 0 {
        return false;
    }
    for bound in names.values() {
        if is_table(bound, number) {
            return true;
        }
    }
    false
}

fn is_table(bound: &Bound, number: u64) -> bool
    ensures { result ≡ is_table number (plain_bound bound.now) }
{
    match bound {
        Bound::Table(id) => id.number == number,
        Bound::Vector(_) => false,
    }
}

/// What the name is bound to.
pub(crate) fn look_up<'a>(names: &'a Names, name: &str) -> Option<&'a Bound>
    ensures { option_copied result ≡ finite.get (bounds_of names.now.entries) name.now }
{
    names.get(name)
}

/// Binds the name, and gives what it was bound to.
pub(crate) fn put_name(names: &mut Names, name: Text, to: Bound) -> Option<Bound>
    requires { 0 < spare names.old }
    ensures names { bounds_of names.new.entries
        ≡ finite.insert (bounds_of names.old.entries) name to }
    ensures old { result ≡ finite.get (bounds_of names.old.entries) name }
    ensures spare { spare names.old ≤ spare names.new + 1 }
{
    match names.insert(name.into_string(), to) {
        Ok(old) => old,
        Err(_) => unreachable!(),
    }
}

/// Unbinds the name, and gives what it was bound to.
pub(crate) fn take_name(names: &mut Names, name: &str) -> Option<Bound>
    ensures names { bounds_of names.new.entries
        ≡ finite.remove (bounds_of names.old.entries) name.now }
    ensures old { result ≡ finite.get (bounds_of names.old.entries) name.now }
    ensures spare { spare names.old ≤ spare names.new }
{
    names.swap_remove(name)
}
