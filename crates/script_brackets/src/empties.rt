//! What a token that ends all operators makes of the innermost frame, where nothing has come in it.
ghost use Rattle.std.specs.Prelude.{◌≡◌, IfOk, option_map};
ghost use Rattle.script_frames.specs.Ends.{made_of, made_none};
ghost use Rattle.script_frames.specs.Frames.{frame_of};
ghost use Rattle.script_frames.specs.declared.frames.End.TheVariants as end;

use crate::brackets::{next_item, query, with_item};
use dt_tree::Expr;
use script_frames::{End, Frame, Made};
use std::alloc::{AllocError, Global};

/// `)` ends a call without arguments.
#[tactic(auto, using(dt_grammar::proofs::Trees::trees, script_frames::proofs::EndViews::empties))]
fn round(frame: Frame) -> Option<Made>
    ensures { option_map made_of result ≡ made_none end.Round (frame_of frame) }
{
    match frame {
        Frame::InCall {
            name,
            args,
            target: None,
        } => {
            if args.is_empty() {
                Some(Made::Have(Expr::Call { name, args }))
            } else {
                None
            }
        }
        _ => None,
    }
}

/// `]` ends a bracket whose last item is empty.
fn square(alloc: Global, frame: Frame) -> Result<Option<Made>, AllocError>
    ensures { IfOk result (λ made. option_map made_of made
        ≡ made_none end.Square (frame_of frame)) }
{
    match frame {
        Frame::InItem { head, filled } => {
            match query(alloc, head, with_item(alloc, filled, None)) {
                Ok(operand) => Ok(Some(Made::Have(operand))),
                Err(error) => Err(error),
            }
        }
        other => {
            drop(other);
            Ok(None)
        }
    }
}

/// `,` ends an empty item of a bracket.
fn comma(alloc: Global, frame: Frame) -> Option<Made>
    ensures { option_map made_of result ≡ made_none end.Comma (frame_of frame) }
{
    match frame {
        Frame::InItem { head, filled } => { Some(next_item(head, with_item(alloc, filled, None))) }
        other => {
            drop(other);
            None
        }
    }
}

/// A break behind an empty line. The next token stands on line `next`.
fn line(next: u32, frame: Frame) -> Option<Made>
    ensures { option_map made_of result ≡ made_none (end.Break next) (frame_of frame) }
{
    match frame {
        Frame::InStmt {
            done,
            target: None,
            ..
        } => Some(Made::Want(Frame::InStmt {
            done,
            line: next,
            target: None,
        })),
        _ => None,
    }
}

/// What the token makes of the frame, where nothing has come in it.
pub fn made_none(alloc: Global, end: End, frame: Frame) -> Result<Option<Made>, AllocError>
    ensures { IfOk result (λ made. option_map made_of made ≡ made_none end (frame_of frame)) }
{
    match end {
        End::Round => Ok(round(frame)),
        End::Square => square(alloc, frame),
        End::Comma => Ok(comma(alloc, frame)),
        End::Break(next) => Ok(line(next, frame)),
        End::Assign | End::Tilde => {
            drop(frame);
            Ok(None)
        }
    }
}
