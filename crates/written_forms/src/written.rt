ghost use Rattle.std.specs.Prelude.{◌≡◌, map};
ghost use Rattle.std.specs.Option.{option_copied};
ghost use Rattle.session_model.specs.Form.{Literal, literal_cell, name_in};
ghost use Rattle.session_model.specs.Meaning.{chain_form, compares, meaning, minus_form};
ghost use Rattle.session_model.specs.Meaning.{not_form, tail_meaning};
ghost use Rattle.written_forms.specs.Seen.{form_seen};

use arg_bind::bare_name;
use dt_base::{Cell, CellRef, ColType, Op, Text};
use dt_tree::{BinOp, Expr, Tail};

/// An expression as it is written, where that decides what it is.
#[derive(Clone, Copy)]
pub enum Written<'a> {
    /// A literal: its cell and its type.
    Literal(CellRef<'a>, ColType),
    /// `-` before this integer literal.
    Negated(i64),
    NullWord,
    InfWord,
    BareName(&'a str),
    /// `!` before a bare name.
    NotName(&'a str),
    /// `-` before a bare name.
    MinusName(&'a str),
    /// `-Inf`
    MinusInf,
    /// Two bare names with an operator.
    Compares(Op, &'a str, &'a str),
    Formula(&'a [Text], &'a [Text]),
    Other,
}

/// A literal. A cell of another type than the literal's counts as NA, and so does -2^63.
fn literal(cell: &Cell, kind: ColType) -> Written<'_>
    ensures { form_seen result ≡ Literal (literal_cell kind cell.now) kind }
{
    match (cell, kind) {
        (Cell::Lgl(b), ColType::Lgl) => Written::Literal(CellRef::Lgl(*b), ColType::Lgl),
        (Cell::Int(n), ColType::Int) => {
            if *n == i64::MIN {
                Written::Literal(CellRef::Na, ColType::Int)
            } else {
                Written::Literal(CellRef::Int(*n), ColType::Int)
            }
        }
        (Cell::Text(text), ColType::Chr) => {
            Written::Literal(CellRef::Text(text.as_str()), ColType::Chr)
        }
        _ => Written::Literal(CellRef::Na, kind),
    }
}

/// `-` before what is written so.
fn minus(written: Written<'_>) -> Written<'_>
    ensures { form_seen result ≡ minus_form (form_seen written.entry) }
{
    match written {
        Written::BareName(name) => Written::MinusName(name),
        Written::InfWord => Written::MinusInf,
        Written::Literal(CellRef::Int(n), _) => Written::Negated(n),
        _ => Written::Other,
    }
}

/// `!` before what is written so.
fn not(written: Written<'_>) -> Written<'_>
    ensures { form_seen result ≡ not_form (form_seen written.entry) }
{
    match written {
        Written::BareName(name) => Written::NotName(name),
        _ => Written::Other,
    }
}

/// Two names with an operator, where both are bare.
fn compared<'a>(op: BinOp, x: Option<&'a str>, y: Option<&'a str>) -> Written<'a>
    ensures { form_seen result ≡ compares op (option_copied x.entry) (option_copied y.entry) }
{
    match (op, x, y) {
        (BinOp::Arith(o), Some(x), Some(y)) => Written::Compares(o, x, y),
        _ => Written::Other,
    }
}

/// A chain of operators.
fn chain<'a>(first: &'a Expr, rest: &'a [Tail]) -> Written<'a>
    ensures { form_seen result
        ≡ chain_form (name_in (meaning first.now).form) (map tail_meaning rest.now) }
{
    match rest {
        [tail] => compared(tail.op, bare_name(first), bare_name(&tail.arg)),
        _ => Written::Other,
    }
}

/// An expression as it is written.
pub fn form_of(e: &Expr) -> Written<'_>
    ensures { form_seen result ≡ (meaning e.now).form }
{
    match e {
        Expr::Lit { cell, kind } => literal(cell, *kind),
        Expr::Null => Written::NullWord,
        Expr::Infinite => Written::InfWord,
        Expr::Name { name } => Written::BareName(name.as_str()),
        Expr::Paren { inner: _ } => Written::Other,
        Expr::Minus { arg } => minus(form_of(arg.get())),
        Expr::Not { arg } => not(form_of(arg.get())),
        Expr::Chain { first, rest } => chain(first.get(), rest.as_slice()),
        Expr::Call { name: _, args: _ } => Written::Other,
        Expr::Query {
            head: _,
            brackets: _,
        } => Written::Other,
        Expr::Formula { left, right } => Written::Formula(left.as_slice(), right.as_slice()),
    }
}
