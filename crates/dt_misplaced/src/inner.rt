ghost use Rattle.std.specs.Prelude.{◌≡◌, ◌∷◌, [], ◌++◌, OnOk};
ghost use Rattle.run_model.specs.Grammar.{is_assign};
ghost use Rattle.run_model.specs.Misplaced.{name_flags, target_flags, names_flags, inner};
ghost use Rattle.run_model.specs.Misplaced.{inner_tails, inner_args, inner_item, inner_brackets};
ghost use Rattle.run_model.specs.TreeView.{tree_of, item_of_second, tails_of, args_of, brackets_of};
ghost use Rattle.run_model.specs.TreeView.{first_of, second_of};

use dt_base::Text;
use dt_tree::{Arg, Bracket, Expr, Second, Tail};
use std::alloc::AllocError;

/// Whether the name is that of the call that assigns.
pub fn is_assign(name: &Text) -> bool
    ensures { result ≡ is_assign name.now }
{
    name.as_str() == ":="
}

/// One flag more.
pub fn push(flags: &mut Vec<bool>, wrong: bool) -> Result<(), AllocError>
    ensures { OnOk result (flags.new.items ≡ flags.old.items ++ wrong ∷ []) }
{
    flags.push(wrong)?;
    Ok(())
}

/// The flag of a name, if it has one.
pub fn walk_name(flags: &mut Vec<bool>, name: &Text, wrong: bool) -> Result<(), AllocError>
    ensures { OnOk result (flags.new.items ≡ flags.old.items ++ name_flags name.now wrong) }
{
    if is_assign(name) {
        push(flags, wrong)?;
    }
    Ok(())
}

/// The flag of a name that is no call's, where there is one.
pub fn walk_target(flags: &mut Vec<bool>, target: &Option<Text>) -> Result<(), AllocError>
    ensures { OnOk result (flags.new.items ≡ flags.old.items ++ target_flags target.now) }
{
    match target {
        Some(name) => walk_name(flags, name, false),
        None => Ok(()),
    }
}

/// The flags of names.
#[tactic(auto, using(crate::proofs::Walk::walking))]
fn walk_names(flags: &mut Vec<bool>, names: &[Text]) -> Result<(), AllocError>
    ensures { OnOk result (flags.new.items ≡ flags.old.items ++ names_flags names.now) }
{
    for name in names {
        walk_name(flags, name, false)?;
    }
    Ok(())
}

/// The flags of an expression within another, where each assignment stands wrong.
#[cycle(walk)]
#[tactic(auto, using(crate::proofs::Walk::walking))]
pub fn walk(flags: &mut Vec<bool>, expr: &Expr) -> Result<(), AllocError>
    ensures { OnOk result (flags.new.items ≡ flags.old.items ++ inner (tree_of expr.now)) }
{
    match expr {
        Expr::Lit { .. } => Ok(()),
        Expr::Null => Ok(()),
        Expr::Infinite => Ok(()),
        Expr::Name { name } => walk_name(flags, name, false),
        Expr::Paren { inner } => walk(flags, inner.get()),
        Expr::Minus { arg } => walk(flags, arg.get()),
        Expr::Not { arg } => walk(flags, arg.get()),
        Expr::Chain { first, rest } => {
            walk(flags, first.get())?;
            walk_tails(flags, rest.as_slice())
        }
        Expr::Call { name, args } => {
            walk_name(flags, name, true)?;
            walk_args(flags, args.as_slice())
        }
        Expr::Query { head, brackets } => {
            walk(flags, head.get())?;
            walk_brackets(flags, brackets.as_slice())
        }
        Expr::Formula { left, right } => {
            walk_names(flags, left.as_slice())?;
            walk_names(flags, right.as_slice())
        }
    }
}

/// The flags of right sides.
#[cycle(walk)]
#[tactic(auto, using(crate::proofs::Walk::walking))]
fn walk_tails(flags: &mut Vec<bool>, rest: &[Tail]) -> Result<(), AllocError>
    ensures { OnOk result (flags.new.items ≡ flags.old.items ++ inner_tails (tails_of rest.now)) }
{
    for tail in rest {
        walk(flags, &tail.arg)?;
    }
    Ok(())
}

/// The flags of arguments.
#[cycle(walk)]
#[tactic(auto, using(crate::proofs::Walk::walking))]
pub fn walk_args(flags: &mut Vec<bool>, args: &[Arg]) -> Result<(), AllocError>
    ensures { OnOk result (flags.new.items ≡ flags.old.items ++ inner_args (args_of args.now)) }
{
    for arg in args {
        walk_target(flags, &arg.name)?;
        walk(flags, &arg.value)?;
    }
    Ok(())
}

/// The flags of brackets.
#[cycle(walk)]
#[tactic(auto, using(crate::proofs::Walk::walking))]
fn walk_brackets(flags: &mut Vec<bool>, brackets: &[Bracket]) -> Result<(), AllocError>
    ensures { OnOk result (flags.new.items ≡ flags.old.items
        ++ inner_brackets (brackets_of brackets.now)) }
{
    for bracket in brackets {
        push(flags, false)?;
        walk_first(flags, &bracket.first)?;
        walk_second(flags, &bracket.second)?;
        walk_first(flags, &bracket.third)?;
        walk_args(flags, bracket.args.as_slice())?;
    }
    Ok(())
}

/// The flags of i, or of by.
#[cycle(walk)]
#[tactic(auto, using(crate::proofs::Walk::walking))]
pub fn walk_first(flags: &mut Vec<bool>, item: &Option<Expr>) -> Result<(), AllocError>
    ensures { OnOk result (flags.new.items ≡ flags.old.items ++ inner_item (first_of item.now)) }
{
    match item {
        Some(expr) => walk(flags, expr),
        None => Ok(()),
    }
}

/// The flags of j, where it stands.
#[cycle(walk)]
pub fn walk_second(flags: &mut Vec<bool>, item: &Option<Second>) -> Result<(), AllocError>
    ensures { OnOk result (flags.new.items ≡ flags.old.items ++ inner_item (second_of item.now)) }
{
    match item {
        Some(j) => walk_j(flags, j),
        None => Ok(()),
    }
}

/// The flags of j.
#[cycle(walk)]
#[tactic(auto, using(crate::proofs::Walk::walking))]
fn walk_j(flags: &mut Vec<bool>, j: &Second) -> Result<(), AllocError>
    ensures { OnOk result (flags.new.items ≡ flags.old.items ++ inner_item (item_of_second j.now)) }
{
    match j {
        Second::Value(expr) => walk(flags, expr),
        Second::Assign { left, right } => {
            walk(flags, left)?;
            push(flags, true)?;
            walk(flags, right)
        }
        Second::AssignAll { args } => {
            push(flags, true)?;
            walk_args(flags, args.as_slice())
        }
    }
}
