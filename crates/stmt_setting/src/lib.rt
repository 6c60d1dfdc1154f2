//! What a statement meets: the script's names, and the options of the session.
//!
//! - `Setting` is that pair, and answers as `Vars` what a name is bound to. `outside` is the scope
//!   of an expression outside brackets, over these names alone.
//!
//! It stands on `table_heap` for names and on `expr_eval` for the trait and the scope. It promises
//! that a name is what the heap's state says.
#![tactic(auto)]

mod setting;

pub use setting::{Setting, outside};
