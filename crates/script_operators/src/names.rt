ghost use Rattle.std.specs.Prelude.{◌≡◌, IfOk, option_map};
ghost use Rattle.run_model.specs.TreeView.{tree_of};
ghost use Rattle.dt_grammar.specs.Machine as model;
ghost use Rattle.script_frames.specs.Frames.{frame_of, frames_of, state_of};
ghost use Rattle.script_frames.specs.Steps.{in_naming, in_arrow, bare_name};

use crate::stack::enter;
use dt_base::Text;
use dt_tree::Expr;
use script_frames::{Frame, State};
use sqlite_items::Items;
use std::alloc::{AllocError, Global};

/// The name that an expression is, where it is a bare name.
#[tactic(auto, using(dt_grammar::proofs::Trees::trees))]
fn into_name(operand: Expr) -> Option<Text>
    ensures { result ≡ bare_name (tree_of operand) }
{
    match operand {
        Expr::Name { name } => Some(name),
        other => {
            drop(other);
            None
        }
    }
}

/// `(` behind an expression, which begins a call where that is a bare name.
#[tactic(auto, using(script_frames::proofs::StepViews::bare_names))]
pub fn opens(alloc: Global, frames: Vec<Frame>, operand: Expr) -> Result<Option<State>, AllocError>
    ensures { IfOk result (λ next. option_map state_of next
        ≡ model.opens (frames_of frames.items) (tree_of operand)) }
{
    let Some(name) = into_name(operand) else {
        return Ok(None);
    };
    let begun = Frame::InCall {
        name,
        args: Items::new(alloc),
        target: None,
    };
    enter(begun, frames)
}

/// The frame behind a name and `=`, where it may take a name.
fn in_naming(frame: Frame, name: Text) -> Option<Frame>
    ensures { option_map frame_of result ≡ in_naming (frame_of frame) name }
{
    match frame {
        Frame::InCall {
            name: call,
            args,
            target: None,
        } => Some(Frame::InCall {
            name: call,
            args,
            target: Some(name),
        }),
        Frame::InItem { head, filled } => Some(Frame::InNamed { head, filled, name }),
        Frame::InStmt {
            done,
            line,
            target: None,
        } => Some(Frame::InStmt {
            done,
            line,
            target: Some(name),
        }),
        other => {
            drop(other);
            None
        }
    }
}

/// `=` behind an expression, which is a name there.
#[tactic(auto, using(script_frames::proofs::StepViews::naming_steps))]
pub fn naming(mut frames: Vec<Frame>, operand: Expr) -> Result<Option<State>, AllocError>
    ensures { IfOk result (λ next. option_map state_of next
        ≡ model.naming (frames_of frames.items) (tree_of operand)) }
{
    let Some(name) = into_name(operand) else {
        return Ok(None);
    };
    let Some(frame) = frames.pop() else {
        return Ok(None);
    };
    let Some(next) = in_naming(frame, name) else {
        return Ok(None);
    };
    enter(next, frames)
}

/// The statement behind a name and `<-`.
fn in_arrow(frame: Frame, name: Text) -> Option<Frame>
    ensures { option_map frame_of result ≡ in_arrow (frame_of frame) name }
{
    match frame {
        Frame::InStmt {
            done,
            line,
            target: None,
        } => Some(Frame::InStmt {
            done,
            line,
            target: Some(name),
        }),
        _ => None,
    }
}

/// `<-` behind an expression, which is a statement's target there.
#[tactic(auto, using(script_frames::proofs::StepViews::naming_steps))]
pub fn arrow(mut frames: Vec<Frame>, operand: Expr) -> Result<Option<State>, AllocError>
    ensures { IfOk result (λ next. option_map state_of next
        ≡ model.arrow_top (frames_of frames.items) (tree_of operand)) }
{
    let Some(name) = into_name(operand) else {
        return Ok(None);
    };
    let Some(frame) = frames.pop() else {
        return Ok(None);
    };
    let Some(next) = in_arrow(frame, name) else {
        return Ok(None);
    };
    enter(next, frames)
}
