//! CSV files: the bytes of a file read into a table, and a table written as bytes.
//!
//! - `read_table`: the table of a file with its warnings, or the first fault of the file.
//! - `write_table`, of `csv_write`: the bytes of a table.
//!
//! Records are those of the crate `csv`; it stands on that, on `header_names` for the names of the
//! columns, on `dt_table` and on `cell_text`. What a file means is `read_csv` and `written_csv` of
//! `run_model`, Csv, and both calls are equal to them.
//!
//! The words of logical and integer columns are made as their records are read, so that no field is
//! kept, and texts are kept where a column's first field is a text. A column that turns out to be
//! of texts behind other fields, as 007 before x, makes the records be read once more. So reading
//! is linear in the bytes, and its memory is the table and a record. A field that is a word of
//! logicals or integers is ASCII, so only texts are looked at for UTF-8.
#![tactic(auto)]

mod check;
mod columns;
mod fail;
mod filling;
mod frame;
mod read;
mod records;
mod table;
mod typed;

pub use csv_write::write_table;
pub use fail::CsvFail;
pub use read::read_table;
