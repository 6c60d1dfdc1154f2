ghost use Rattle.std.specs.Prelude.{◌≡◌, ◌<◌, true, length, option_map, Some};
ghost use Rattle.auto_index.specs.Added.{FitsWith, IsOf, altered_with, keeps, names_column};
ghost use Rattle.auto_index.specs.Added.{parts_in};
ghost use Rattle.dt_model.specs.Table.{name_at};
ghost use Rattle.stmt_change.specs.Altered.{plain_altered};
ghost use Rattle.stmt_change.specs.Places.{table_at};
ghost use Rattle.table_heap.specs.Seen.{IsAt};

use dt_table::{Change, Index, is_named};
use stmt_value::{Altered, Given};
use table_heap::{Heap, Id};

/// Whether the change, if there is one, names the column.
fn names_column(parts: &Option<Change>, col: usize) -> bool
    ensures { result ≡ names_column parts.now col }
{
    match parts {
        Some(change) => is_named(&change.parts, col),
        None => false,
    }
}

/// Whether the table of an Id keeps an index of this column by what is altered: nothing is, or it
/// is this table, and the column is not assigned to.
pub fn is_kept(altered: &Option<Altered>, id: Id, col: usize, heap: &Heap) -> bool
    requires live { IsAt heap.now id }
    requires within { col < length (table_at heap.now id).names }
    requires fits { FitsWith heap.now altered.now }
    ensures kept { result ≡ keeps id.number (name_at (table_at heap.now id).names col)
        (option_map (plain_altered heap.now) altered.now) }
    ensures same { result ≡ true → IsOf id altered.now }
{
    let _count = heap.live();
    let _names = heap.table(id).names();
    match altered {
        None => true,
        Some(a) => a.id == id && !names_column(&a.parts, col),
    }
}

/// The change, if there is one.
fn parts_in(altered: Option<Altered>) -> Option<Change>
    ensures { result ≡ parts_in altered }
{
    match altered {
        None => None,
        Some(a) => a.parts,
    }
}

/// What is given, with this index of the table of an Id before its change.
pub fn with_index<'a>(given: Given<'a>, id: Id, index: Index) -> Given<'a>
    ensures { result
        ≡ record given.entry { altered = Some (altered_with id index given.entry.altered) } }
{
    Given {
        value: given.value,
        warns: given.warns,
        altered: Some(Altered {
            id,
            index: Some(index),
            parts: parts_in(given.altered),
        }),
        shown: given.shown,
    }
}
