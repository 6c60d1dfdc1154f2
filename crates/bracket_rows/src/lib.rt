//! The rows that the i of a bracket finds, and what an expression meets over them.
//!
//! - `rows_found` values i over the table's own columns and chooses rows by it: their places in the
//!   table (`Found`), whether one is named that is not there, whether i is logical, and the warnings
//!   of i. The call of `order` gives all rows in an order, and has no value.
//! - `surround` makes what j and assignments look at (`Surroundings`); its `scope` lends it to
//!   `expr_eval`.
//! - `checked_value` gives a value whose type is looked at first.
//! - `whole_scope` is what i meets: all rows of the table.
//!
//! It stands on `expr_eval` for types and values, on `row_choice` for rows, on `row_order` for their
//! order, on `dt_table`, and on no crate of brackets. It promises that the rows are those of the
//! definition `rows_found`, over the plain reading of the table, or the fault is its first one, that
//! the rows of a logical stand in the order of the table, and that what an expression meets is
//! `rows_env` of the rows. Want of memory is the one other answer, and no fault blames a file. A
//! join as i is not served, and is told as `unbuilt` where the definition tells it.
//!
//! The vector of a bare name is read as i without a copy. Without i the table's own columns are
//! met, and only the places of the rows are made anew; with one the rows are gathered once, where
//! they are asked for.
#![tactic(auto)]

mod around;
mod forms;
mod found;
mod ordered;
mod rows;
mod scopes;

pub use around::{Surroundings, found_columns, surround};
pub use found::Found;
pub use rows::{checked_value, rows_found};
pub use scopes::whole_scope;
