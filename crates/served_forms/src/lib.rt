//! Which forms of the language statements serve.
//!
//! - `is_served` tells whether all forms of an expression are served, where it stands in a
//!   bracket or outside.
//!
//! It stands on the tree, on the tables of calls, and on the definition `meaning` of
//! `session_model`, whose field `served` it answers exactly. A tree is gone through once.
#![tactic(auto)]

mod forms;
mod joins;

pub use forms::is_served;
