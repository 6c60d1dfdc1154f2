ghost use Rattle.std.specs.Prelude.{◌≡◌, neg_ℤ};
ghost use Rattle.session_model.specs.Asked.{mult_in, mult_named, no_match_in, roll_in, rolled};
ghost use Rattle.session_model.specs.Asked.{rolled_text};
ghost use Rattle.session_model.specs.Form.{flag_in, text_in};
ghost use Rattle.written_forms.specs.Seen.{form_seen};

use crate::Written;
use dt_base::{CellRef, ColType, Mult, NoMatch, Roll};

/// TRUE or FALSE as written.
pub fn flag_in(written: Written<'_>) -> Option<bool>
    ensures { result ≡ flag_in (form_seen written.entry) }
{
    match written {
        Written::Literal(CellRef::Lgl(b), _) => Some(b),
        _ => None,
    }
}

fn mult_named(text: &str) -> Option<Mult>
    ensures { result ≡ mult_named text.now }
{
    match text {
        "all" => Some(Mult::All),
        "first" => Some(Mult::First),
        "last" => Some(Mult::Last),
        _ => None,
    }
}

/// What `mult` may be: `"all"`, `"first"`, `"last"`.
pub fn mult_in(written: Written<'_>) -> Option<Mult>
    ensures { result ≡ mult_in (text_in (form_seen written.entry)) }
{
    match written {
        Written::Literal(CellRef::Text(text), _) => mult_named(text),
        _ => None,
    }
}

/// What `nomatch` may be: `NA`, `NULL`, `0L`.
pub fn no_match_in(written: Written<'_>) -> Option<NoMatch>
    ensures { result ≡ no_match_in (form_seen written.entry) }
{
    match written {
        Written::NullWord => Some(NoMatch::Skip),
        Written::Literal(CellRef::Na, ColType::Lgl) => Some(NoMatch::Na),
        Written::Literal(CellRef::Int(0), _) => Some(NoMatch::Skip),
        _ => None,
    }
}

/// A roll of so many, backward where it is negative.
fn rolled(n: i64) -> Roll
    ensures { result ≡ rolled n }
{
    if n < 0 {
        Roll::Backward(Some(n.unsigned_abs()))
    } else {
        Roll::Forward(Some(n.unsigned_abs()))
    }
}

/// The same of the integer with the other sign.
fn rolled_back(n: i64) -> Roll
    ensures { result ≡ rolled (neg_ℤ n) }
{
    if n > 0 {
        Roll::Backward(Some(n.unsigned_abs()))
    } else {
        Roll::Forward(Some(n.unsigned_abs()))
    }
}

fn rolled_text(text: &str) -> Option<Option<Roll>>
    ensures { result ≡ rolled_text text.now }
{
    if text == "nearest" {
        Some(Some(Roll::Nearest))
    } else {
        None
    }
}

/// What `roll` may be; FALSE rolls not at all.
pub fn roll_in(written: Written<'_>) -> Option<Option<Roll>>
    ensures { result ≡ roll_in (form_seen written.entry) }
{
    match written {
        Written::InfWord => Some(Some(Roll::Forward(None))),
        Written::MinusInf => Some(Some(Roll::Backward(None))),
        Written::Literal(CellRef::Lgl(true), _) => Some(Some(Roll::Forward(None))),
        Written::Literal(CellRef::Lgl(false), _) => Some(None),
        Written::Literal(CellRef::Int(n), _) => Some(Some(rolled(n))),
        Written::Negated(n) => Some(Some(rolled_back(n))),
        Written::Literal(CellRef::Text(text), _) => rolled_text(text),
        _ => None,
    }
}
