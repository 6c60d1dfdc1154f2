//! What operators give: a type for types, and a column for columns.
//!
//! - `tail_type` and `tail_value` are for an operator between two, ranges and `%in%` among them.
//! - `sign_type` and `sign_value` are for `-` and `!` before one, and for `is.na`.
//! - `chosen` is `fifelse` of columns.
//!
//! It stands on the operations of `na_ops`, and tells their refusals as faults with the operator's
//! word; it knows no name and no tree but its operators. It promises exactly the type and the
//! vector of `expr_model`, Operators, or its fault. Want of memory is the one free answer, and no
//! error blames a file. Each cell of both sides is touched once at most.
#![tactic(auto)]

mod operations;
mod ranges;
mod types;

pub use operations::{chosen, sign_value, tail_value};
pub use types::{sign_type, tail_type};
