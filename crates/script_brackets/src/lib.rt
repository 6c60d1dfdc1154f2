//! Brackets, calls, formulas and statements while a script is read: what a token that ends an
//! expression makes of the innermost frame.
//!
//! - `made_at`: where an expression has come in the frame; `made_none`: where nothing has.
//! - `last_stmt`: the statements with the last one. `head_of`: what stands before a bracket.
//!
//! It stands on the frames of `script_frames`, and the reader `dt_script` on it. Each answer is
//! that of the machine of `dt_grammar`, Machine; only memory can be wanting.
#![tactic(auto)]

mod brackets;
mod empties;
mod endings;
mod formulas;

pub use brackets::head_of;
pub use empties::made_none;
pub use endings::{last_stmt, made_at};
