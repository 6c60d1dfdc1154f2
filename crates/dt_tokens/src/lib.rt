//! Reading a script: from its bytes to its tokens, each with its place.
//!
//! - `tokens`: all tokens of a script, or its first fault, `TokensFail`.
//! - `laws`: what follows from the definitions of tokens alone.
//!
//! It stands on the types of `dt_tree` and the definitions of `run_model`, and the grammar stands
//! on it. It promises that a script is exactly the tokens that are given (`AreTokens`), or that
//! the fault that is given is the script's first one (`HasFault`). The time is linear in the bytes.
#![tactic(auto)]

mod bytes;
mod cut;
mod first;
pub mod laws;
mod number;
mod place;
mod reading;
mod sign;
mod text;
mod utf8;
mod word;

pub use reading::{TokensFail, tokens};
