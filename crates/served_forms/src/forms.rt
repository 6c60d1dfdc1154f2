ghost use Rattle.std.specs.Prelude.{◌≡◌, is_some, map, option_map};
ghost use Rattle.std.specs.List.{list_all};
ghost use Rattle.session_model.specs.Binding.{word_in};
ghost use Rattle.session_model.specs.Form.{name_in};
ghost use Rattle.session_model.specs.Meaning.{meaning, arg_meaning, tail_meaning, second_meaning};
ghost use Rattle.session_model.specs.Meaning.{bracket_meaning, call_served};
ghost use Rattle.session_model.specs.Served.{is_served_first, is_served_left, is_served_second};
ghost use Rattle.session_model.specs.Served.{is_served_argument, bracket_served};

use crate::joins::is_join;
use dt_tree::{Arg, Bracket, Expr, Second, Tail};
use func_table::{is_bracket_argument, is_later, is_later_special};

/// The name that is written before an argument; the empty text where none is.
fn written_name(arg: &Arg) -> &str
    ensures { result.now ≡ word_in (arg_meaning arg.now).name }
{
    match &arg.name {
        Some(name) => name.as_str(),
        None => "",
    }
}

/// Whether statements serve all forms of the expression, where it stands in a bracket or outside.
#[cycle(served)]
pub fn is_served(e: &Expr, inside: bool) -> bool
    ensures { result ≡ (meaning e.now).served inside }
{
    match e {
        Expr::Lit { .. } | Expr::Null | Expr::Infinite => true,
        Expr::Name { name } => !(inside && is_later_special(name.as_str())),
        Expr::Paren { inner } => is_served(inner.get(), inside),
        Expr::Minus { arg } | Expr::Not { arg } => is_served(arg.get(), inside),
        Expr::Chain { first, rest } => {
            is_served(first.get(), inside) && are_served_tails(rest.as_slice(), inside)
        }
        Expr::Call { name, args } => is_served_call(name.as_str(), args.as_slice(), inside),
        Expr::Query { head, brackets } => {
            is_served(head.get(), inside) && are_served_brackets(brackets.as_slice())
        }
        Expr::Formula { left: _, right: _ } => false,
    }
}

/// Whether all right sides of these operators are served.
#[cycle(served)]
fn are_served_tails(tails: &[Tail], inside: bool) -> bool
    ensures { result ≡ list_all (λ t. t.means.served inside) (map tail_meaning tails.now) }
{
    for tail in tails {
        if !is_served(&tail.arg, inside) {
            return false;
        }
    }
    true
}

/// Whether the call, and all forms of its arguments, are served.
#[cycle(served)]
fn is_served_call(name: &str, args: &[Arg], inside: bool) -> bool
    ensures { result ≡ call_served name.now (map arg_meaning args.now) inside }
{
    !is_later(name) && are_served_values(args, inside)
}

/// Whether all forms of the values of these arguments are served.
#[cycle(served)]
fn are_served_values(args: &[Arg], inside: bool) -> bool
    ensures { result ≡ list_all (λ a. a.means.served inside) (map arg_meaning args.now) }
{
    for arg in args {
        if !is_served(&arg.value, inside) {
            return false;
        }
    }
    true
}

#[cycle(served)]
fn are_served_brackets(brackets: &[Bracket]) -> bool
    ensures { result ≡ list_all bracket_served (map bracket_meaning brackets.now) }
{
    for bracket in brackets {
        if !is_served_bracket(bracket) {
            return false;
        }
    }
    true
}

/// Whether all forms of a bracket are served: it has no third item.
#[cycle(served)]
fn is_served_bracket(bracket: &Bracket) -> bool
    ensures { result ≡ bracket_served (bracket_meaning bracket.now) }
{
    bracket.third.is_none()
        && is_served_first(&bracket.first)
        && is_served_second(&bracket.second)
        && are_served_arguments(bracket.args.as_slice())
}

/// Whether what stands as i is served: it is no join.
#[cycle(served)]
fn is_served_first(first: &Option<Expr>) -> bool
    ensures { result ≡ is_served_first (option_map meaning first.now) }
{
    match first {
        None => true,
        Some(i) => !is_join(i) && is_served(i, true),
    }
}

/// Whether what stands as j is served; an assignment is where its parts are.
#[cycle(served)]
fn is_served_second(second: &Option<Second>) -> bool
    ensures { result ≡ is_served_second (option_map second_meaning second.now) }
{
    match second {
        None => true,
        Some(Second::Value(j)) => is_served(j, true),
        Some(Second::Assign { left, right }) => is_served_left(left) && is_served(right, true),
        Some(Second::AssignAll { args }) => are_served_values(args.as_slice(), true),
    }
}

/// Whether the expression is a bare name.
#[tactic(auto, using(session_model::proofs::Forms::written))]
fn is_bare_name(e: &Expr) -> bool
    ensures { result ≡ is_some (name_in (meaning e.now).form) }
{
    matches!(e, Expr::Name { .. })
}

/// Whether a left side is served: a bare name is a column's, whatever it means elsewhere.
#[cycle(served)]
fn is_served_left(left: &Expr) -> bool
    ensures { result ≡ is_served_left (meaning left.now) }
{
    is_bare_name(left) || is_served(left, true)
}

#[cycle(served)]
fn are_served_arguments(args: &[Arg]) -> bool
    ensures { result ≡ list_all is_served_argument (map arg_meaning args.now) }
{
    for arg in args {
        if !is_served_argument(arg) {
            return false;
        }
    }
    true
}

/// Whether a bracket's argument is let through: it is none that brackets have. Its fault comes when
/// its turn comes.
#[cycle(served)]
fn is_served_argument(arg: &Arg) -> bool
    ensures { result ≡ is_served_argument (arg_meaning arg.now) }
{
    !is_bracket_argument(written_name(arg)) && is_served(&arg.value, true)
}
