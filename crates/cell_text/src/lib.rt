//! Cells and their texts: the integer and the truth value that bytes spell, and how both are
//! written.
//!
//! - `integer_of`, `truth_of`, `field_truth`: what bytes spell. They look at each byte once at the
//!   most and take no memory.
//! - `push_integer`, `truth_text`: how a value is written.
//!
//! Files, printed tables and the language's coercions stand on these, so that one spelling is read
//! and written alike everywhere. Each is equal to its definition in `dt_model`, Spelling.
#![tactic(auto)]

mod read;
mod write;

pub use read::{field_truth, integer_of, truth_of};
pub use write::{push_integer, truth_text};
