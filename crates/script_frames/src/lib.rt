//! What has been begun while a script is read: the frames, and the symbols of the grammar.
//!
//! - `State`: how far a script is read. `Frame`: what waits for an expression. `Head`, `Filled`,
//!   `Formula`: a bracket and a formula so far.
//! - `Symbol`, `End`, `Prefix`: a token as the grammar sees it. `Made`: what a token makes of the
//!   innermost frame.
//!
//! Its definitions view these as the machine of `dt_grammar`, Machine, and its lemmas go through
//! the steps of the machine frame by frame. `script_operators` and `script_brackets` stand on it.
#![tactic(auto)]

mod frames;

pub use frames::{End, Filled, Formula, Frame, Head, Made, Prefix, State, Symbol};
