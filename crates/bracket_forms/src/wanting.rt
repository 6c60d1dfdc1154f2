ghost use Rattle.std.specs.Prelude.{◌≡◌};
ghost use Rattle.std.specs.Option.{option_copied};
ghost use Rattle.bracket_forms.specs.Items.{asked_seen, by_seen, is_assignment};
ghost use Rattle.session_model.specs.Asked.{first_barred, first_wanting, is_each, is_on};
ghost use Rattle.session_model.specs.Asked.{wants_join};
ghost use Rattle.session_model.specs.Meaning.{second_meaning};

use crate::items::{Asked, By};
use dt_tree::Second;
use func_table::{Argument, argument_named};

fn is_each(by: &By<'_>) -> bool
    ensures { result ≡ is_each (by_seen by.now) }
{
    match by {
        By::EachRow => true,
        _ => false,
    }
}

fn wants_join(by: &By<'_>, k: Option<Argument>) -> bool
    ensures { result ≡ wants_join (by_seen by.now) k }
{
    match k {
        None => false,
        Some(Argument::By) => is_each(by),
        Some(Argument::Keyby) | Some(Argument::SdCols) => false,
        Some(_) => true,
    }
}

fn is_on(k: Option<Argument>) -> bool
    ensures { result ≡ is_on k }
{
    match k {
        Some(Argument::On) => true,
        _ => false,
    }
}

/// The word of the first argument that wants a join, if there is one: `on`, `mult`, `nomatch`,
/// `roll`, `rollends`, `allow.cartesian`, and by where it is `.EACHI`.
pub fn first_wanting<'a>(q: &Asked<'a>) -> Option<&'a str>
    ensures { option_copied result ≡ first_wanting (asked_seen q.now) }
{
    for w in q.words.as_slice() {
        if wants_join(&q.by, argument_named(w)) {
            return Some(*w);
        }
    }
    None
}

/// The word of the first argument that a join behind `!` does not take, if there is one: any of
/// those but `on`.
pub fn first_barred<'a>(q: &Asked<'a>) -> Option<&'a str>
    ensures { option_copied result ≡ first_barred (asked_seen q.now) }
{
    for w in q.words.as_slice() {
        let k = argument_named(w);
        if wants_join(&q.by, k) && !is_on(k) {
            return Some(*w);
        }
    }
    None
}

/// Whether what stands as j is an assignment, or the call of `:=`.
pub fn is_assignment(second: &Second) -> bool
    ensures { result ≡ is_assignment (second_meaning second.now) }
{
    match second {
        Second::Value(_) => false,
        Second::Assign { left: _, right: _ } => true,
        Second::AssignAll { args: _ } => true,
    }
}
