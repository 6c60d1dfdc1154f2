//! Printed text: tables, vectors, NULL, faults and warnings, as the bytes that a script prints.
//!
//! - `table_text` prints a table, `frame_text` columns with their names as one, `vector_text` a
//!   column as a vector, and `null_text` NULL.
//! - `fault_line` and `warn_lines`, of `message_lines`, print what a statement says beside its
//!   answer.
//!
//! Each call gives one new buffer with whole lines, the last line feed included, so that the caller
//! puts it at once. It stands on columns, frames and tables, on the spellings of `cell_text`, and
//! on `message_lines` for other numbers.
//!
//! It promises that the bytes are those of the definitions `printed_table`, `printed_vector`,
//! `null_text`, `printed_fault` and `printed_warns`, which stand in `run_model`. Only memory can be
//! wanting.
//!
//! A table costs its shown cells, two touches each: of sixteen million rows ten are read. A vector
//! costs a touch for each of its cells.
#![tactic(auto)]

mod cells;
mod lines;
mod page;
mod table;
mod vector;
mod widths;

pub use message_lines::{fault_line, warn_lines};
pub use table::{frame_text, table_text};
pub use vector::{null_text, vector_text};
