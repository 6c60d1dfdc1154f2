ghost use Rattle.std.specs.Prelude.{◌≡◌, ◌∷◌, ℕ, IfOk, Some, option_map, ◌==◌};
ghost use Rattle.run_model.specs.Grammar as grammar;
ghost use Rattle.run_model.specs.GrammarTrees as grammar_trees;
ghost use Rattle.dt_grammar.specs.Machine as model;
ghost use Rattle.run_model.specs.TreeView.{tree_of, tails_of};
ghost use Rattle.script_frames.specs.Frames.{prefix_of, frame_of, frames_of, state_of, closed_of};
ghost use Rattle.script_frames.specs.Frames.{binds, ended, frame_demand};

use crate::levels::{is_single, level, prefix_level};
use crate::stack::{enter, put_back};
use dt_tree::{BinOp, Expr, Tail};
use script_frames::{Frame, Prefix, State};
use sqlite_items::{Boxed, Items};
use std::alloc::{AllocError, Global};

/// Whether the frame is an operator that binds at least as tightly as `least`.
pub fn binds(frame: &Frame, least: u8) -> bool
    ensures { result ≡ binds least (frame_of frame.now) }
{
    match frame {
        Frame::Front(prefix) => least <= prefix_level(*prefix),
        Frame::Left { op, .. } => least <= level(*op),
        _ => false,
    }
}

/// A one-sided operator with its operand.
#[tactic(auto, using(dt_grammar::proofs::Trees::trees))]
fn unary(alloc: Global, prefix: Prefix, operand: Expr) -> Result<Expr, AllocError>
    ensures { IfOk result (λ t. tree_of t
        ≡ grammar_trees.Unary (prefix_of prefix) (tree_of operand)) }
{
    let arg = Boxed::new(alloc, operand)?;
    match prefix {
        Prefix::Not => Ok(Expr::Not { arg }),
        Prefix::Negate => Ok(Expr::Minus { arg }),
    }
}

/// One more operator of a chain, with its operand.
#[tactic(auto, using(dt_grammar::proofs::Trees::trees))]
fn with_tail(mut rest: Items<Tail>, op: BinOp, operand: Expr) -> Result<Items<Tail>, AllocError>
    ensures { IfOk result (λ all. tails_of all
        ≡ grammar_trees.MoreTails (tails_of rest) op (tree_of operand)) }
{
    rest.push(Tail { op, arg: operand })?;
    Ok(rest)
}

/// A chain with its last operand.
#[tactic(auto, using(dt_grammar::proofs::Trees::trees))]
fn chain(
    alloc: Global,
    first: Expr,
    rest: Items<Tail>,
    op: BinOp,
    operand: Expr,
) -> Result<Expr, AllocError>
    ensures { IfOk result (λ t. tree_of t
        ≡ grammar_trees.Chain (tree_of first)
        (grammar_trees.MoreTails (tails_of rest) op (tree_of operand))) }
{
    match with_tail(rest, op, operand) {
        Ok(rest) => Ok(Expr::Chain {
            first: Boxed::new(alloc, first)?,
            rest,
        }),
        Err(error) => {
            drop(first);
            Err(error)
        }
    }
}

/// The operator with its last operand.
pub fn ended(alloc: Global, frame: Frame, operand: Expr) -> Result<Expr, AllocError>
    ensures { IfOk result (λ t. tree_of t ≡ ended (frame_of frame) (tree_of operand)) }
{
    match frame {
        Frame::Front(prefix) => unary(alloc, prefix, operand),
        Frame::Left { first, rest, op } => chain(alloc, first, rest, op, operand),
        other => {
            drop(other);
            Ok(operand)
        }
    }
}

/// Ends the operators that bind at least as tightly as `least`: the frames that are left, and the
/// expression that has come in the innermost of them.
#[tactic(auto, using(script_frames::proofs::FrameViews::closing))]
pub fn close(
    alloc: Global,
    mut frames: Vec<Frame>,
    mut operand: Expr,
    least: u8,
) -> Result<(Vec<Frame>, Expr), AllocError>
    ensures { IfOk result (λ r. closed_of r.0.items r.1
        ≡ model.close least (frames_of frames.items) (tree_of operand)) }
{
    while let Some(frame) = frames.pop() {
        if !binds(&frame, least) {
            return put_back(frame, frames, operand);
        }
        operand = ended(alloc, frame, operand)?;
    }
    Ok((frames, operand))
}

/// How tightly what comes in this frame has to bind.
pub fn frame_demand(frame: &Frame) -> u8
    ensures { result ≡ frame_demand (frame_of frame.now) }
{
    match frame {
        Frame::Front(prefix) => prefix_level(*prefix) + 1,
        Frame::Left { op, .. } => level(*op) + 1,
        _ => 0,
    }
}

/// How tightly what comes next has to bind.
pub fn demand(frames: &[Frame]) -> u8
    ensures { result ≡ model.demand (frames_of frames.now) }
{
    match frames.last() {
        Some(frame) => frame_demand(frame),
        None => 0,
    }
}

/// A one-sided operator.
pub fn front(prefix: Prefix, frames: Vec<Frame>) -> Result<Option<State>, AllocError>
    ensures { IfOk result (λ next. option_map state_of next
        ≡ model.front (prefix_of prefix) (frames_of frames.items)) }
{
    if demand(&frames) > prefix_level(prefix) {
        return Ok(None);
    }
    enter(Frame::Front(prefix), frames)
}

/// A chain begins with an expression that has come in these frames.
fn begin_chain(
    alloc: Global,
    op: BinOp,
    frames: Vec<Frame>,
    operand: Expr,
) -> Result<Option<State>, AllocError>
    ensures { IfOk result (λ next. option_map state_of next
        ≡ model.begin_chain op (frames_of frames.items) (tree_of operand)) }
{
    if demand(&frames) > level(op) {
        drop((frames, operand));
        return Ok(None);
    }
    let begun = Frame::Left {
        first: operand,
        rest: Items::new(alloc),
        op,
    };
    enter(begun, frames)
}

/// A chain begins with an expression that has come in this frame.
fn begin_in(
    alloc: Global,
    op: BinOp,
    frame: Frame,
    frames: Vec<Frame>,
    operand: Expr,
) -> Result<Option<State>, AllocError>
    ensures { IfOk result (λ next. option_map state_of next
        ≡ model.begin_chain op (frame_of frame ∷ frames_of frames.items) (tree_of operand)) }
{
    let (frames, operand) = put_back(frame, frames, operand)?;
    begin_chain(alloc, op, frames, operand)
}

/// A chain goes on behind its last operand.
fn go_on(
    op: BinOp,
    first: Expr,
    rest: Items<Tail>,
    last: BinOp,
    frames: Vec<Frame>,
    operand: Expr,
) -> Result<Option<State>, AllocError>
    ensures { IfOk result (λ next. option_map state_of next
        ≡ Some (model.Want (model.Left (tree_of first)
        (grammar_trees.MoreTails (tails_of rest) last (tree_of operand)) op
        ∷ frames_of frames.items))) }
{
    match with_tail(rest, last, operand) {
        Ok(rest) => enter(Frame::Left { first, rest, op }, frames),
        Err(error) => {
            drop((first, frames));
            Err(error)
        }
    }
}

/// The operand of the last operator of a chain has come. The chain goes on where its operators are
/// of the new one's level and may stand in a row, and otherwise is the operand of the next.
fn extend_chain(
    alloc: Global,
    op: BinOp,
    first: Expr,
    rest: Items<Tail>,
    last: BinOp,
    frames: Vec<Frame>,
    operand: Expr,
) -> Result<Option<State>, AllocError>
    ensures { IfOk result (λ next. option_map state_of next
        ≡ model.extend_chain (grammar.level last == grammar.level op) (grammar.is_single op) op
        (tree_of first) (tails_of rest) last (frames_of frames.items) (tree_of operand)) }
{
    if level(last) != level(op) {
        let frame = Frame::Left {
            first,
            rest,
            op: last,
        };
        return begin_in(alloc, op, frame, frames, operand);
    }
    if is_single(op) {
        drop((first, rest, frames, operand));
        return Ok(None);
    }
    go_on(op, first, rest, last, frames, operand)
}

/// A two-sided operator behind an expression that has come in these frames. It goes on with a
/// chain of its level, or begins one.
#[tactic(auto, using(script_frames::proofs::FrameViews::frames))]
pub fn infix_op(
    alloc: Global,
    op: BinOp,
    mut frames: Vec<Frame>,
    operand: Expr,
) -> Result<Option<State>, AllocError>
    ensures { IfOk result (λ next. option_map state_of next
        ≡ model.infix_op op (closed_of frames.items operand)) }
{
    let Some(frame) = frames.pop() else {
        return begin_chain(alloc, op, frames, operand);
    };
    match frame {
        Frame::Left {
            first,
            rest,
            op: last,
        } => extend_chain(alloc, op, first, rest, last, frames, operand),
        frame => begin_in(alloc, op, frame, frames, operand),
    }
}
