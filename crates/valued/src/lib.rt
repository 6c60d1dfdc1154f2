//! What an expression or a function gives: a column of its own, with its warnings.
//!
//! - `Valued` is that pair. `one` and `one_warned` make the column of one word.
//!
//! It stands on columns and their words, and below all that values: the functions on columns, the
//! choice of rows, and expressions.
#![tactic(auto)]

mod column;

pub use column::{Valued, one, one_warned};
