//! The functions of a script that give one answer from the cells of a column, and `c`.
//!
//! - `combine`: all cells of several columns in order, in their common type.
//! - `sum`, `min`, `max`: over the cells that are not NA, by the flag `na_rm`.
//! - `any`, `all`: over logicals, with NA.
//! - `first`, `last`, `length`.
//!
//! Each takes a column and gives a `Valued`, a column of its own with its warnings, or an
//! `EvalFail`: the function's own fault, or want of memory. It stands on the words of columns,
//! `na_words`, and on `eval_fail` and `valued` for its answers; what values the calls of a script
//! stands on it.
//!
//! Each answer is that of its definition in `vector_model`, Functions, and the faults come exactly
//! where they come there. Each is linear in the cells and touches each once, but for `first` and
//! `last`, which touch one, and `length`, which touches none.
#![tactic(auto)]

mod ends;
mod extremes;
mod joining;
mod missing;
mod ranked;
mod sums;
mod truths;

pub use ends::{first, last, length};
pub use extremes::{max, min};
pub use joining::combine;
pub use sums::sum;
pub use truths::{all, any};
