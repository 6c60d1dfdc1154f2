//! What a script is read into: tokens, and the trees that they spell. Types alone.
//!
//! - `token`: `Token`, its `Sign` and `Literal`, and `Placed`, a token with its `Place`.
//! - `pieces`: what a text is cut into on the way to its tokens, `Piece` and `First`, with the
//!   classes of bytes that decide it.
//! - `fault`: `ScriptFault`, why a script has no tokens.
//! - `tree`: `Script`, `Stmt`, `Expr` and the parts of an expression.
//!
//! The types stand below the definitions, which name them: contracts see them as plain data, so
//! the trees that code holds are the trees that the definitions speak of. A list inside a tree is
//! an `Items` and a box a `Boxed`, for the same reason: contracts see the list, and the value.
//! `dt_script`, which reads a script, names those of `tree` again.
#![tactic(auto)]

mod fault;
mod pieces;
mod token;
mod tree;

pub use fault::ScriptFault;
pub use pieces::{Before, Class, First, Piece, Start};
pub use token::{Literal, Place, Placed, Sign, Token};
pub use tree::{Arg, BinOp, Bracket, Expr, Script, Second, Stmt, Tail};
