//! What a token that ends all operators makes of the innermost frame.
ghost use Rattle.std.specs.Prelude.{◌≡◌, IfOk, Some, option_map};
ghost use Rattle.run_model.specs.GrammarTrees as grammar;
ghost use Rattle.run_model.specs.TreeView.{tree_of, args_of, stmts_of};
ghost use Rattle.dt_grammar.specs.Machine as model;
ghost use Rattle.script_frames.specs.Ends as ends;
ghost use Rattle.script_frames.specs.Ends.{made_of, made_at, next_made, with_stmt, after_stmts};
ghost use Rattle.script_frames.specs.Frames.{head_tree, filled_of, frame_of};
ghost use Rattle.script_frames.specs.declared.frames.End.TheVariants as end;

use crate::brackets::{item, next_item, query, with_arg};
use crate::formulas::tilde;
use dt_base::Text;
use dt_tree::{Arg, Expr, Stmt};
use script_frames::{End, Filled, Frame, Head, Made};
use sqlite_items::{Boxed, Items};
use std::alloc::{AllocError, Global};

/// An expression in a parenthesis.
fn paren(alloc: Global, operand: Expr) -> Result<Option<Made>, AllocError>
    ensures { IfOk result (λ made. option_map made_of made
        ≡ Some (ends.Have (grammar.Paren (tree_of operand)))) }
{
    let inner = Boxed::new(alloc, operand)?;
    Ok(Some(Made::Have(Expr::Paren { inner })))
}

/// A call with its last argument.
fn last_arg(
    name: Text,
    args: Items<Arg>,
    target: Option<Text>,
    operand: Expr,
) -> Result<Option<Made>, AllocError>
    ensures { IfOk result (λ made. option_map made_of made
        ≡ Some (ends.Have (grammar.Call name
        (grammar.MoreArgs (args_of args) target (tree_of operand))))) }
{
    let args = with_arg(args, target, operand)?;
    Ok(Some(Made::Have(Expr::Call { name, args })))
}

/// `)` ends a parenthesis or a call.
fn round(alloc: Global, frame: Frame, operand: Expr) -> Result<Option<Made>, AllocError>
    ensures { IfOk result (λ made. option_map made_of made
        ≡ made_at end.Round (frame_of frame) (tree_of operand)) }
{
    match frame {
        Frame::InParen => paren(alloc, operand),
        Frame::InCall { name, args, target } => last_arg(name, args, target, operand),
        other => {
            drop((other, operand));
            Ok(None)
        }
    }
}

/// A query with its last bracket.
fn last_bracket(alloc: Global, head: Head, filled: Filled) -> Result<Option<Made>, AllocError>
    ensures { IfOk result (λ made. option_map made_of made
        ≡ Some (ends.Have (model.query (head_tree head) (filled_of filled)))) }
{
    let operand = query(alloc, head, filled)?;
    Ok(Some(Made::Have(operand)))
}

/// `]` ends a bracket.
fn square(alloc: Global, frame: Frame, operand: Expr) -> Result<Option<Made>, AllocError>
    ensures { IfOk result (λ made. option_map made_of made
        ≡ made_at end.Square (frame_of frame) (tree_of operand)) }
{
    match item(alloc, frame, operand)? {
        Some((head, filled)) => last_bracket(alloc, head, filled),
        None => Ok(None),
    }
}

/// The next argument of a call begins.
fn next_arg(
    name: Text,
    args: Items<Arg>,
    target: Option<Text>,
    operand: Expr,
) -> Result<Option<Made>, AllocError>
    ensures { IfOk result (λ made. option_map made_of made
        ≡ Some (ends.Want (model.InCall name
        (grammar.MoreArgs (args_of args) target (tree_of operand)) None))) }
{
    let args = with_arg(args, target, operand)?;
    Ok(Some(Made::Want(Frame::InCall {
        name,
        args,
        target: None,
    })))
}

/// The next item of a bracket begins.
fn comma_item(alloc: Global, frame: Frame, operand: Expr) -> Result<Option<Made>, AllocError>
    ensures { IfOk result (λ made. option_map made_of made
        ≡ option_map (λ came. next_made came.0 came.1)
        (model.item (frame_of frame) (tree_of operand))) }
{
    match item(alloc, frame, operand)? {
        Some((head, filled)) => Ok(Some(next_item(head, filled))),
        None => Ok(None),
    }
}

/// `,` ends an argument of a call or an item of a bracket.
fn comma(alloc: Global, frame: Frame, operand: Expr) -> Result<Option<Made>, AllocError>
    ensures { IfOk result (λ made. option_map made_of made
        ≡ made_at end.Comma (frame_of frame) (tree_of operand)) }
{
    match frame {
        Frame::InCall { name, args, target } => next_arg(name, args, target, operand),
        frame => comma_item(alloc, frame, operand),
    }
}

/// The statements with one more.
fn one_stmt(
    mut done: Items<Stmt>,
    line: u32,
    target: Option<Text>,
    expr: Expr,
) -> Result<Items<Stmt>, AllocError>
    ensures { IfOk result (λ all. stmts_of all
        ≡ after_stmts (stmts_of done) line target (tree_of expr)) }
{
    done.push(Stmt { line, target, expr })?;
    Ok(done)
}

/// The statements with this one, where the frame is a statement.
pub fn last_stmt(frame: Frame, operand: Expr) -> Result<Option<Items<Stmt>>, AllocError>
    ensures { IfOk result (λ done. option_map stmts_of done
        ≡ with_stmt (frame_of frame) (tree_of operand)) }
{
    match frame {
        Frame::InStmt { done, line, target } => match one_stmt(done, line, target, operand) {
            Ok(done) => Ok(Some(done)),
            Err(error) => Err(error),
        },
        other => {
            drop((other, operand));
            Ok(None)
        }
    }
}

/// A break ends a statement. The next token stands on line `next`.
fn line(next: u32, frame: Frame, operand: Expr) -> Result<Option<Made>, AllocError>
    ensures { IfOk result (λ made. option_map made_of made
        ≡ made_at (end.Break next) (frame_of frame) (tree_of operand)) }
{
    match last_stmt(frame, operand)? {
        Some(done) => Ok(Some(Made::Want(Frame::InStmt {
            done,
            line: next,
            target: None,
        }))),
        None => Ok(None),
    }
}

/// `:=` ends the left side of an assignment, where the items of a bracket fill i alone.
fn assigned(head: Head, filled: Filled, operand: Expr) -> Option<Made>
    ensures { option_map made_of result
        ≡ made_at end.Assign (model.InItem (head_tree head) (filled_of filled)) (tree_of operand) }
{
    match filled {
        Filled::UpToI { first } => Some(Made::Want(Frame::InAssign {
            head,
            first,
            left: operand,
        })),
        other => {
            drop((other, head, operand));
            None
        }
    }
}

/// `:=` ends the left side of an assignment, where the item is j.
fn assign(frame: Frame, operand: Expr) -> Option<Made>
    ensures { option_map made_of result ≡ made_at end.Assign (frame_of frame) (tree_of operand) }
{
    match frame {
        Frame::InItem { head, filled } => assigned(head, filled, operand),
        other => {
            drop((other, operand));
            None
        }
    }
}

/// What the token makes of the frame, where this expression has come in it.
pub fn made_at(
    alloc: Global,
    end: End,
    frame: Frame,
    operand: Expr,
) -> Result<Option<Made>, AllocError>
    ensures { IfOk result (λ made. option_map made_of made
        ≡ made_at end (frame_of frame) (tree_of operand)) }
{
    match end {
        End::Round => round(alloc, frame, operand),
        End::Square => square(alloc, frame, operand),
        End::Comma => comma(alloc, frame, operand),
        End::Break(next) => line(next, frame, operand),
        End::Assign => Ok(assign(frame, operand)),
        End::Tilde => tilde(alloc, frame, operand),
    }
}
