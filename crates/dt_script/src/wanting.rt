ghost use Rattle.std.specs.Prelude.{◌≡◌, ◌∷◌, IfOk, None, option_map};
ghost use Rattle.run_model.specs.GrammarTrees.{Operator};
ghost use Rattle.run_model.specs.TreeView.{tree_of};
ghost use Rattle.dt_grammar.specs.Machine as model;
ghost use Rattle.script_frames.specs.Ends.{none_step};
ghost use Rattle.script_frames.specs.Frames.{frame_of, frames_of, state_of, symbol_of};

use dt_base::Op;
use dt_tree::{BinOp, Expr};
use script_brackets::made_none;
use script_frames::{End, Frame, Prefix, State, Symbol};
use script_operators::{enter, front, settle};
use std::alloc::{AllocError, Global};

/// An expression of one token has come.
fn came(frames: Vec<Frame>, operand: Expr) -> State
    ensures { state_of result ≡ model.Have (frames_of frames.items) (tree_of operand) }
{
    State::Have { frames, operand }
}

/// A two-sided operator where an expression is to come: only `-` has a one-sided sense.
fn operator(op: BinOp, frames: Vec<Frame>) -> Result<Option<State>, AllocError>
    ensures { IfOk result (λ next. option_map state_of next
        ≡ model.step (model.Want (frames_of frames.items)) (Operator op)) }
{
    match op {
        BinOp::Arith(Op::Sub) => front(Prefix::Negate, frames),
        _ => Ok(None),
    }
}

/// A token that ends all operators, where nothing has come in the innermost frame.
fn ended(alloc: Global, end: End, mut frames: Vec<Frame>) -> Result<Option<State>, AllocError>
    ensures { IfOk result (λ next. option_map state_of next
        ≡ none_step end (frames_of frames.items)) }
{
    match frames.pop() {
        Some(frame) => empty_frame(alloc, end, frame, frames),
        None => Ok(None),
    }
}

/// The same in this frame.
fn empty_frame(
    alloc: Global,
    end: End,
    frame: Frame,
    frames: Vec<Frame>,
) -> Result<Option<State>, AllocError>
    ensures { IfOk result (λ next. option_map state_of next
        ≡ none_step end (frame_of frame ∷ frames_of frames.items)) }
{
    match made_none(alloc, end, frame)? {
        Some(made) => settle(made, frames),
        None => Ok(None),
    }
}

/// A token with which no expression begins, and none ends.
fn refuse(_frames: Vec<Frame>) -> Option<State>
    ensures { result ≡ None }
{
    None
}

/// A token where an expression is to come.
pub fn want(alloc: Global, frames: Vec<Frame>, symbol: Symbol) -> Result<Option<State>, AllocError>
    ensures { IfOk result (λ next. option_map state_of next
        ≡ model.step (model.Want (frames_of frames.items)) (symbol_of symbol)) }
{
    match symbol {
        Symbol::Literal { cell, kind } => Ok(Some(came(frames, Expr::Lit { cell, kind }))),
        Symbol::Null => Ok(Some(came(frames, Expr::Null))),
        Symbol::Infinite => Ok(Some(came(frames, Expr::Infinite))),
        Symbol::Name(name) => Ok(Some(came(frames, Expr::Name { name }))),
        Symbol::Operator(op) => operator(op, frames),
        Symbol::Bang => front(Prefix::Not, frames),
        Symbol::Open => enter(Frame::InParen, frames),
        Symbol::End(end) => ended(alloc, end, frames),
        Symbol::Arrow | Symbol::Is | Symbol::OpenSquare | Symbol::Semicolon => Ok(refuse(frames)),
    }
}
