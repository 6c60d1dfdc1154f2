//! The index that a statement adds by itself.
//!
//! - `indexed` gives what a statement gives, with the index that it adds to the table at the head
//!   of its brackets.
//!
//! It stands on `keys_index`, which tells an i that is a column beside a value and makes the index,
//! on `bracket_rows` and `expr_eval` for that value over all rows, and on `stmt_value` for what a
//! statement gives. It promises exactly the index of the definition `indexed_given`, and that the
//! index fits its table. Nothing is valued where the option, the key and the indices let none be
//! added, and no row is put in order where none is kept.
#![tactic(auto)]

mod altered;
mod columns;
mod statements;

pub use statements::indexed;
