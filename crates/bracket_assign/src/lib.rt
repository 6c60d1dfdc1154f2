//! What an assignment in a bracket changes.
//!
//! - `assigned` answers `left := right`, and `assigned_all` the call of `:=`: the change of the
//!   table before the bracket (`Assigned`), which is not made yet, and the warnings.
//!
//! It stands on `bracket_rows` for the rows that i finds and what the right side meets, on
//! `expr_eval` for types and values, and on `dt_table` for changes. It promises that the change
//! makes the table that the definition `assigned_answer` says, with the same warnings, or that the
//! fault is its first one, and that the change fits the table. Want of memory is the one other
//! answer, and no fault blames a file.
#![tactic(auto)]

mod assignments;

pub use assign_sides::Assigned;
pub use assignments::{assigned, assigned_all};
