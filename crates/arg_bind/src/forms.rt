ghost use Rattle.std.specs.Prelude.{◌≡◌};
ghost use Rattle.std.specs.Option.{option_copied};
ghost use Rattle.session_model.specs.Form.{Literal, flag_in, literal_cell, name_in, text_in};
ghost use Rattle.session_model.specs.Meaning.{meaning};

use dt_base::{Cell, ColType};
use dt_tree::Expr;

/// The name of a bare name; anything else is none.
#[tactic(auto, using(session_model::proofs::Forms::written))]
pub fn bare_name(e: &Expr) -> Option<&str>
    ensures { option_copied result ≡ name_in (meaning e.now).form }
{
    match e {
        Expr::Name { name } => Some(name.as_str()),
        _ => None,
    }
}

/// The text of a literal's cell, where it has one.
fn cell_text(cell: &Cell, kind: ColType) -> Option<&str>
    ensures { option_copied result ≡ text_in (Literal (literal_cell kind cell.now) kind) }
{
    match (cell, kind) {
        (Cell::Text(text), ColType::Chr) => Some(text.as_str()),
        _ => None,
    }
}

/// The text of a text literal; anything else, and NA, is none.
#[tactic(auto, using(session_model::proofs::Forms::written))]
pub fn text_literal(e: &Expr) -> Option<&str>
    ensures { option_copied result ≡ text_in (meaning e.now).form }
{
    match e {
        Expr::Lit { cell, kind } => cell_text(cell, *kind),
        _ => None,
    }
}

/// The flag of a literal's cell, where it has one.
fn cell_flag(cell: &Cell, kind: ColType) -> Option<bool>
    ensures { result ≡ flag_in (Literal (literal_cell kind cell.now) kind) }
{
    match (cell, kind) {
        (Cell::Lgl(flag), ColType::Lgl) => Some(*flag),
        _ => None,
    }
}

/// The flag that is written as TRUE or FALSE; anything else, and NA, is none.
#[tactic(auto, using(session_model::proofs::Forms::written))]
pub fn flag_literal(e: &Expr) -> Option<bool>
    ensures { result ≡ flag_in (meaning e.now).form }
{
    match e {
        Expr::Lit { cell, kind } => cell_flag(cell, *kind),
        _ => None,
    }
}
