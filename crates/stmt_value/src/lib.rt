//! What an expression gives as the value of a statement: a table, a vector or NULL.
//!
//! - `whole` answers it as a statement's value, and `value` where a table is wanted, or the first
//!   fault.
//! - `argument`, `named_file`, `wanted_table`: what commands ask of their arguments.
//! - `Value` and `Given` are what it answers, with the change of a table (`Altered`) that an
//!   assignment in a bracket makes once the statement is done; `Setting` is what a statement meets.
//!
//! It stands on the definitions of `session_model`, on `table_heap` for names, on `file_value` for
//! files, on `arg_bind` for calls, on `expr_eval` for expressions and on `dt_query` for brackets.
//! It changes no name and no table that has one; a bracket borrows the table before it. It promises
//! exactly the value, the warnings or the first fault of the definition `meaning`, where files
//! tell what they hold; that each answer that blames a file comes only where the files counted it;
//! and that a change fits its table.
#![tactic(auto)]

mod chains;
mod given;
mod reports;
mod values;
mod vectors;

pub use file_value::{ValueFail, refusal, refusal_unbuilt};
pub use given::{Given, Value};
pub use served_forms::is_served;
pub use stmt_change::Altered;
pub use stmt_setting::Setting;
pub use values::{argument, named_file, value, wanted_table, whole};
