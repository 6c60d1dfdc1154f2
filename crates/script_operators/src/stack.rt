ghost use Rattle.std.specs.Prelude.{◌≡◌, ◌∷◌, IfOk, Some, option_map};
ghost use Rattle.run_model.specs.TreeView.{tree_of};
ghost use Rattle.dt_grammar.specs.Machine as model;
ghost use Rattle.script_frames.specs.Ends.{made_of, state_with};
ghost use Rattle.script_frames.specs.Frames.{frame_of, frames_of, state_of, closed_of};

use dt_tree::Expr;
use script_frames::{Frame, Made, State};
use std::alloc::AllocError;

/// A frame begins: an expression is to come in it.
pub fn enter(frame: Frame, mut frames: Vec<Frame>) -> Result<Option<State>, AllocError>
    ensures { IfOk result (λ next. option_map state_of next
        ≡ Some (model.Want (frame_of frame ∷ frames_of frames.items))) }
{
    frames.push(frame)?;
    Ok(Some(State::Want { frames }))
}

/// The frame goes back on the others, with the expression that has come in it.
pub fn put_back(
    frame: Frame,
    mut frames: Vec<Frame>,
    operand: Expr,
) -> Result<(Vec<Frame>, Expr), AllocError>
    ensures { IfOk result (λ r. closed_of r.0.items r.1
        ≡ (frame_of frame ∷ frames_of frames.items, tree_of operand)) }
{
    match frames.push(frame) {
        Ok(()) => Ok((frames, operand)),
        Err(error) => {
            drop((frames, operand));
            Err(error.into())
        }
    }
}

/// The state behind what was made of the innermost frame.
pub fn settle(made: Made, frames: Vec<Frame>) -> Result<Option<State>, AllocError>
    ensures { IfOk result (λ next. option_map state_of next
        ≡ Some (state_with (made_of made) (frames_of frames.items))) }
{
    match made {
        Made::Have(operand) => Ok(Some(State::Have { frames, operand })),
        Made::Want(frame) => enter(frame, frames),
        Made::NeedName { head, filled } => Ok(Some(State::NeedName {
            head,
            filled,
            frames,
        })),
        Made::NeedWord(formula) => Ok(Some(State::NeedWord { formula, frames })),
    }
}
