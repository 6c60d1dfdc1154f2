//! The names that the header of a file gives to its columns.
//!
//! - `column_names`: the names, each filled where its field is empty and made new where it stands
//!   already.
//! - `name_warns`: the warning where a name is not its field.
//!
//! It stands on the records of the crate `csv`, and reading a file stands on it. Both calls are
//! equal to their definitions in `run_model`, CsvNames. Each name is looked up in a set of those
//! before it, and no number is tried twice for one name.
#![tactic(auto)]

mod names;

pub use names::{column_names, name_warns};
