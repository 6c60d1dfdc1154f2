//! The words that every other crate names.
//!
//! - `Text`, `Cell`, `CellRef`, `ColType`: what a table holds. `Cell` is the plain cell of the
//!   definitions as well, so there is no second type and no function between two of them.
//! - `Fault` with its `Code`, and `Warns`, a set of `Warn`: what a statement answers when it is
//!   refused, and what it says beside its answer.
//! - `Op` and `UnOp`: the operators of the language.
//! - `Cond`, `Mult`, `NoMatch`, `Roll`, `Access`, `Pairs`, `JoinFail`: the words of joins. `Agg`:
//!   the aggregates.
//! - `Steps`, the counter of touched cells, and `limits`.
//!
//! It stands on nothing. It promises that each value is seen by contracts as plain data: a text
//! as its bytes, a counter as a number, a set of warnings as its six answers.
#![tactic(auto)]

mod cell;
mod fault;
mod joins;
pub mod limits;
mod operators;
mod steps;
mod text;
mod warns;

pub use cell::{Cell, CellRef, ColType};
pub use fault::{Code, Fault};
pub use joins::{Access, Agg, Cmp, Cond, JoinFail, Mult, NoMatch, Pairs, Roll};
pub use operators::{Op, UnOp};
pub use steps::Steps;
pub use text::{ColName, Text};
pub use warns::{Warn, Warns};
