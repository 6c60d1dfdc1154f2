ghost use Rattle.std.specs.Prelude.{◌≡◌, IfOk};
ghost use Rattle.run_model.specs.TokenView.{plain_tokens};
ghost use Rattle.dt_grammar.specs.Machine as model;
ghost use Rattle.script_frames.specs.Frames.{state_of};
ghost use Rattle.dt_script.specs.Judges.{Judges};

use crate::step::{finish, step};
use crate::symbol::symbol;
use dt_tree::{Placed, Stmt};
use script_frames::{Frame, State};
use sqlite_items::Items;
use std::alloc::{AllocError, Global};

/// Nothing has been read.
fn begin(alloc: Global) -> Result<State, AllocError>
    ensures { IfOk result (λ state. state_of state ≡ model.init) }
{
    let mut frames = Vec::new(alloc);
    frames.push(Frame::InStmt {
        done: Items::new(alloc),
        line: 1,
        target: None,
    })?;
    Ok(State::Want { frames })
}

/// The statements that the tokens spell, or the number of the first token with which no script
/// goes on.
pub fn read(alloc: Global, tokens: &[Placed]) -> Result<Result<Items<Stmt>, usize>, AllocError>
    ensures { IfOk result (Judges (plain_tokens tokens.now)) }
{
    let mut state = begin(alloc)?;
    for (at, placed) in tokens.iter().enumerate() {
        let next = symbol(&placed.token)?;
        match step(alloc, state, next)? {
            Some(reached) => state = reached,
            None => return Ok(Err(at)),
        }
    }
    match finish(alloc, state)? {
        Some(done) => Ok(Ok(done)),
        None => Ok(Err(tokens.len())),
    }
}
