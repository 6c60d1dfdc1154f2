//! What a statement does, computed before any of it is done.
//!
//! - `compute` answers a statement's effect: the text for the output, the file that is written, the
//!   warnings, and the change of a table, a name and the options; or its first fault.
//! - A statement of a new kind adds a case of `compute`.
//!
//! It stands on `stmt_value` for the values of expressions, on `stmt_change` for effects, and on
//! `dt_print` and `csv_edge` for text. It changes nothing, and puts and writes nothing: a table
//! that is altered is printed from a copy. It promises exactly the effect or the first fault of the
//! definition `step`, where files tell what they hold; and that an effect's change fits the names
//! and tables that it was computed from.
#![tactic(auto)]

mod assigned;
mod commands;
mod printed;
mod statements;

pub use statements::compute;
