ghost use Rattle.std.specs.Prelude.{◌≡◌, ℕ, true, IfOk, Some, option_map};
ghost use Rattle.run_model.specs.Grammar as grammar;
ghost use Rattle.run_model.specs.GrammarTrees.{MoreArgs};
ghost use Rattle.dt_grammar.specs.Machine as model;
ghost use Rattle.run_model.specs.TreeView.{tree_of, args_of, bracket_of, brackets_of};
ghost use Rattle.run_model.specs.TreeView.{item_of_second, second_of};
ghost use Rattle.script_frames.specs.Ends.{made_of, next_made};
ghost use Rattle.script_frames.specs.Frames.{head_tree, filled_of, frame_of};
ghost use Rattle.script_frames.specs.Steps.{bracket_tree, placed, came_of};

use dt_base::Text;
use dt_tree::{Arg, Bracket, Expr, Second};
use script_frames::{Filled, Frame, Head, Made};
use sqlite_items::{Boxed, Items};
use std::alloc::{AllocError, Global};

/// Whether the name is `:=`.
pub fn is_assign(name: &Text) -> bool
    ensures { result ≡ grammar.is_assign name.now }
{
    name.as_str() == ":="
}

/// One more argument.
#[tactic(auto, using(dt_grammar::proofs::Trees::trees))]
pub fn with_arg(
    mut args: Items<Arg>,
    name: Option<Text>,
    value: Expr,
) -> Result<Items<Arg>, AllocError>
    ensures { IfOk result (λ all. args_of all ≡ MoreArgs (args_of args) name (tree_of value)) }
{
    args.push(Arg { name, value })?;
    Ok(args)
}

/// What stands before a bracket.
#[tactic(auto, using(dt_grammar::proofs::Trees::trees))]
pub fn head_of(alloc: Global, operand: Expr) -> Head
    ensures { head_tree result ≡ model.head_of (tree_of operand) }
{
    match operand {
        Expr::Query { head, brackets } => Head {
            tree: head.into_inner(),
            brackets,
        },
        operand => Head {
            tree: operand,
            brackets: Items::new(alloc),
        },
    }
}

/// The bracket with these items.
#[tactic(auto, using(script_frames::proofs::StepViews::brackets))]
pub fn bracket(alloc: Global, filled: Filled) -> Bracket
    ensures { bracket_of result ≡ bracket_tree (filled_of filled) }
{
    match filled {
        Filled::Nothing => Bracket {
            first: None,
            second: None,
            third: None,
            args: Items::new(alloc),
        },
        Filled::UpToI { first } => Bracket {
            first,
            second: None,
            third: None,
            args: Items::new(alloc),
        },
        Filled::UpToJ { first, second } => Bracket {
            first,
            second,
            third: None,
            args: Items::new(alloc),
        },
        Filled::UpToBy {
            first,
            second,
            third,
            args,
        } => Bracket {
            first,
            second,
            third,
            args,
        },
    }
}

/// One more bracket.
#[tactic(auto, using(script_frames::proofs::StepViews::queries))]
fn with_bracket(
    alloc: Global,
    mut brackets: Items<Bracket>,
    filled: Filled,
) -> Result<Items<Bracket>, AllocError>
    ensures { IfOk result (λ all. brackets_of all
        ≡ grammar.with_bracket (brackets_of brackets) (filled_of filled)) }
{
    brackets.push(bracket(alloc, filled))?;
    Ok(brackets)
}

/// The query with one more bracket.
#[tactic(auto, using(dt_grammar::proofs::Trees::trees))]
pub fn query(alloc: Global, head: Head, filled: Filled) -> Result<Expr, AllocError>
    ensures { IfOk result (λ t. tree_of t ≡ model.query (head_tree head) (filled_of filled)) }
{
    let Head { tree, brackets } = head;
    match with_bracket(alloc, brackets, filled) {
        Ok(brackets) => Ok(Expr::Query {
            head: Boxed::new(alloc, tree)?,
            brackets,
        }),
        Err(error) => {
            drop(tree);
            Err(error)
        }
    }
}

/// An expression as j: the call of `:=` is an assignment there.
#[tactic(auto, using(dt_grammar::proofs::Trees::trees, script_frames::proofs::StepViews::seconds))]
pub fn as_j(operand: Expr) -> Second
    ensures { item_of_second result ≡ grammar.as_j (tree_of operand) }
{
    match operand {
        Expr::Call { name, args } => {
            if is_assign(&name) {
                Second::AssignAll { args }
            } else {
                Second::Value(Expr::Call { name, args })
            }
        }
        operand => Second::Value(operand),
    }
}

/// What stands at j, or nothing.
pub fn second(item: Option<Expr>) -> Option<Second>
    ensures { second_of result ≡ placed true item }
{
    match item {
        Some(operand) => Some(as_j(operand)),
        None => None,
    }
}

/// One more item without a name, which may be empty.
#[tactic(auto, using(script_frames::proofs::StepViews::items))]
pub fn with_item(alloc: Global, filled: Filled, item: Option<Expr>) -> Filled
    ensures { filled_of result
        ≡ grammar.with_item (filled_of filled) (placed (grammar.is_j (filled_of filled)) item) }
{
    match filled {
        Filled::Nothing => Filled::UpToI { first: item },
        Filled::UpToI { first } => Filled::UpToJ {
            first,
            second: second(item),
        },
        Filled::UpToJ { first, second } => Filled::UpToBy {
            first,
            second,
            third: item,
            args: Items::new(alloc),
        },
        Filled::UpToBy {
            first,
            second,
            third,
            args,
        } => {
            drop(item);
            Filled::UpToBy {
                first,
                second,
                third,
                args,
            }
        }
    }
}

/// One more item with a name.
#[tactic(auto, using(script_frames::proofs::StepViews::names))]
pub fn with_name(
    alloc: Global,
    filled: Filled,
    name: Text,
    value: Expr,
) -> Result<Filled, AllocError>
    ensures { IfOk result (λ f. filled_of f
        ≡ grammar.with_name (filled_of filled) name (tree_of value)) }
{
    let Bracket {
        first,
        second,
        third,
        args,
    } = bracket(alloc, filled);
    match with_arg(args, Some(name), value) {
        Ok(args) => Ok(Filled::UpToBy {
            first,
            second,
            third,
            args,
        }),
        Err(error) => {
            drop((first, second, third));
            Err(error)
        }
    }
}

/// An item with a name that ends with this expression.
fn named_item(
    alloc: Global,
    head: Head,
    filled: Filled,
    name: Text,
    operand: Expr,
) -> Result<Option<(Head, Filled)>, AllocError>
    ensures { IfOk result (λ came. option_map came_of came
        ≡ Some (head_tree head, grammar.with_name (filled_of filled) name (tree_of operand))) }
{
    match with_name(alloc, filled, name, operand) {
        Ok(filled) => Ok(Some((head, filled))),
        Err(error) => {
            drop(head);
            Err(error)
        }
    }
}

/// An item that ends with this expression: what stands before its bracket, and what the items fill
/// with it.
#[tactic(auto, using(script_frames::proofs::StepViews::seconds))]
pub fn item(
    alloc: Global,
    frame: Frame,
    operand: Expr,
) -> Result<Option<(Head, Filled)>, AllocError>
    ensures { IfOk result (λ came. option_map came_of came
        ≡ model.item (frame_of frame) (tree_of operand)) }
{
    match frame {
        Frame::InItem { head, filled } => Ok(Some((head, with_item(alloc, filled, Some(operand))))),
        Frame::InNamed { head, filled, name } => named_item(alloc, head, filled, name, operand),
        Frame::InAssign { head, first, left } => Ok(Some((
            head,
            Filled::UpToJ {
                first,
                second: Some(Second::Assign {
                    left,
                    right: operand,
                }),
            },
        ))),
        other => {
            drop((other, operand));
            Ok(None)
        }
    }
}

/// Whether an item without a name may come.
pub fn takes_unnamed(filled: &Filled) -> bool
    ensures { result ≡ grammar.takes_unnamed (filled_of filled.now) }
{
    match filled {
        Filled::UpToBy { .. } => false,
        _ => true,
    }
}

/// The next item of a bracket.
pub fn next_item(head: Head, filled: Filled) -> Made
    ensures { made_of result ≡ next_made (head_tree head) (filled_of filled) }
{
    if takes_unnamed(&filled) {
        Made::Want(Frame::InItem { head, filled })
    } else {
        Made::NeedName { head, filled }
    }
}
