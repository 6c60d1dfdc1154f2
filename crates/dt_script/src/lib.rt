//! Reading a script: from its bytes to its trees.
//!
//! - `parse`: the script that bytes are, or its first fault, `ParseFail`.
//! - `Script`, `Stmt`, `Expr` and the other trees, which `dt_tree` declares and this crate names
//!   again.
//!
//! It stands on `dt_tokens` for the tokens, on `dt_grammar` for the lemmas of the grammar, and on
//! `dt_misplaced` for the assignments in wrong places. The grammar takes the tokens one by one,
//! with a stack of what has been begun (`script_frames`), and never goes back: `script_operators`
//! says what an operator or a name makes of it, and `script_brackets` what a token does that ends
//! all operators of what has come. A frame, an expression or a state that is let go is dropped by a
//! call, `drop(..)`: else the proof has a case for each of its forms, and for two of them one for
//! each pair.
//!
//! It promises that a script is given exactly where the bytes spell it, and the fault exactly where
//! it is the first. Time is linear in the bytes and the stack grows with the nesting alone, which
//! no clause says and `reading_cases` tries.
#![tactic(auto)]

mod bytes;
mod having;
mod place;
mod reading;
mod step;
mod symbol;
mod wanting;

pub use bytes::{ParseFail, parse};
pub use dt_tree::{Arg, BinOp, Bracket, Expr, Script, Second, Stmt, Tail};
