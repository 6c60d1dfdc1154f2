ghost use Rattle.std.specs.Prelude.{◌≡◌, ◌∷◌, suc, IfOk, Some, option_map};
ghost use Rattle.run_model.specs.Grammar as grammar;
ghost use Rattle.run_model.specs.TreeView.{tree_of};
ghost use Rattle.dt_grammar.specs.Machine as model;
ghost use Rattle.script_frames.specs.Ends.{end_step};
ghost use Rattle.script_frames.specs.Frames.{frame_of, frames_of, state_of, symbol_of};

use dt_tree::{BinOp, Expr};
use script_brackets::{head_of, made_at};
use script_frames::{End, Filled, Frame, State, Symbol};
use script_operators::{arrow, close, enter, infix_op, level, naming, opens, settle};
use std::alloc::{AllocError, Global};

/// A two-sided operator behind an expression: it ends what binds more tightly.
fn operator(
    alloc: Global,
    op: BinOp,
    frames: Vec<Frame>,
    operand: Expr,
) -> Result<Option<State>, AllocError>
    ensures { IfOk result (λ next. option_map state_of next
        ≡ model.infix_op op (model.close (suc (grammar.level op)) (frames_of frames.items)
        (tree_of operand))) }
{
    let (frames, operand) = close(alloc, frames, operand, level(op) + 1)?;
    infix_op(alloc, op, frames, operand)
}

/// `[` behind an expression: it binds most tightly, and ends nothing.
fn begin_bracket(
    alloc: Global,
    frames: Vec<Frame>,
    operand: Expr,
) -> Result<Option<State>, AllocError>
    ensures { IfOk result (λ next. option_map state_of next
        ≡ Some (model.Want (model.InItem (model.head_of (tree_of operand)) grammar.Nothing
        ∷ frames_of frames.items))) }
{
    let head = head_of(alloc, operand);
    let begun = Frame::InItem {
        head,
        filled: Filled::Nothing,
    };
    enter(begun, frames)
}

/// A token behind an expression that has come in this frame.
pub fn in_frame(
    alloc: Global,
    end: End,
    frame: Frame,
    frames: Vec<Frame>,
    operand: Expr,
) -> Result<Option<State>, AllocError>
    ensures { IfOk result (λ next. option_map state_of next
        ≡ end_step end (frame_of frame ∷ frames_of frames.items, tree_of operand)) }
{
    match made_at(alloc, end, frame, operand)? {
        Some(made) => settle(made, frames),
        None => Ok(None),
    }
}

/// A token that ends all operators, behind an expression.
fn ended(
    alloc: Global,
    end: End,
    frames: Vec<Frame>,
    operand: Expr,
) -> Result<Option<State>, AllocError>
    ensures { IfOk result (λ next. option_map state_of next
        ≡ end_step end (model.close 0 (frames_of frames.items) (tree_of operand))) }
{
    let (mut frames, operand) = close(alloc, frames, operand, 0)?;
    match frames.pop() {
        Some(frame) => in_frame(alloc, end, frame, frames, operand),
        None => {
            drop(operand);
            Ok(None)
        }
    }
}

/// A token behind an expression.
pub fn have(
    alloc: Global,
    frames: Vec<Frame>,
    operand: Expr,
    symbol: Symbol,
) -> Result<Option<State>, AllocError>
    ensures { IfOk result (λ next. option_map state_of next
        ≡ model.step (model.Have (frames_of frames.items) (tree_of operand)) (symbol_of symbol)) }
{
    match symbol {
        Symbol::Operator(op) => operator(alloc, op, frames, operand),
        Symbol::Open => opens(alloc, frames, operand),
        Symbol::OpenSquare => begin_bracket(alloc, frames, operand),
        Symbol::Is => naming(frames, operand),
        Symbol::Arrow => arrow(frames, operand),
        Symbol::End(end) => ended(alloc, end, frames, operand),
        other => {
            // No expression goes on with it, and none ends.
            drop((other, frames, operand));
            Ok(None)
        }
    }
}
