ghost use Rattle.std.specs.Prelude.{◌≡◌};
ghost use Rattle.session_model.specs.Meaning.{meaning};
ghost use Rattle.session_model.specs.Written as written;
ghost use Rattle.served_forms.specs.Joins.{joining_of, joining_named, turned_round, through_parens};

use dt_tree::Expr;
use func_table::{Kind, func_named, is_list, kind_of};

/// What an expression is as the i of a bracket, as written and whatever its names are bound to.
#[derive(Clone, Copy)]
enum Joining {
    /// An expression.
    No,
    /// A query or a table function, which gives a table to join with.
    Table,
    /// A list, which gives values to join with.
    List,
    /// One of these behind `!`.
    Anti,
}

/// `!` turns a join round; before anything else it is logical.
fn turned(joining: Joining) -> Joining
    ensures { result ≡ turned_round joining }
{
    match joining {
        Joining::Table | Joining::List => Joining::Anti,
        Joining::No | Joining::Anti => Joining::No,
    }
}

/// Parentheses let a table through, and hide a list and a `!`.
fn in_parentheses(joining: Joining) -> Joining
    ensures { result ≡ through_parens joining }
{
    match joining {
        Joining::Table => Joining::Table,
        Joining::No | Joining::List | Joining::Anti => Joining::No,
    }
}

/// A call of this name: a list and a table function are joins.
fn of_call(name: &str) -> Joining
    ensures { result ≡ joining_named name.now }
{
    if is_list(name) {
        return Joining::List;
    }
    match func_named(name) {
        Some(f) if kind_of(f) == Kind::Table => Joining::Table,
        _ => Joining::No,
    }
}

#[tactic(auto, using(crate::proofs::Joinings::alike))]
fn of_expression(e: &Expr) -> Joining
    ensures { result ≡ joining_of (meaning e.now).joins }
{
    match e {
        Expr::Paren { inner } => in_parentheses(of_expression(inner.get())),
        Expr::Not { arg } => turned(of_expression(arg.get())),
        Expr::Call { name, args: _ } => of_call(name.as_str()),
        Expr::Query {
            head: _,
            brackets: _,
        } => Joining::Table,
        _ => Joining::No,
    }
}

/// Whether the expression as the i of a bracket is a join, whatever its names are bound to.
#[tactic(auto, using(crate::proofs::Joinings::is_join_alike))]
pub(crate) fn is_join(e: &Expr) -> bool
    ensures { result ≡ written.is_join (meaning e.now).joins }
{
    match of_expression(e) {
        Joining::No => false,
        Joining::Table | Joining::List | Joining::Anti => true,
    }
}
