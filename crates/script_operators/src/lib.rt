//! Operators and names while a script is read.
//!
//! - `front`, `infix_op`: a one-sided operator, and a two-sided one behind an expression; `close`
//!   ends the operators that bind at least as tightly as a level, `level` is that of an operator.
//! - `opens`, `naming`, `arrow`: `(`, `=` and `<-` behind an expression that may be a name.
//! - `enter`, `settle`: a frame begins; the state behind what was made of a frame.
//!
//! It stands on the frames of `script_frames`, and the reader `dt_script` on it. Each step is that
//! of the machine of `dt_grammar`, Machine; only memory can be wanting.
#![tactic(auto)]

mod levels;
mod names;
mod operators;
mod stack;

pub use levels::level;
pub use names::{arrow, naming, opens};
pub use operators::{close, front, infix_op};
pub use stack::{enter, settle};
