//! A table, written as the bytes of a CSV file.
//!
//! - `write_table`: the bytes of a table.
//!
//! Row texts are those of the crate `csv`; it stands on that, on `dt_table` and on `cell_text`.
//! What a file means is `written_csv` of `run_model`, Csv, and the call is equal to it.
#![tactic(auto)]

mod write;
mod writer;

pub use write::write_table;
