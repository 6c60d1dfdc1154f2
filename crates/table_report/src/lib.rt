//! What is told of the orders that a table keeps: its key, and its indices.
//!
//! - `report` gives the names of the key's columns, or of each index as one text with `__` between
//!   the names; none where there is no key, or no index.
//!
//! It stands on `dt_table` and on the definitions of `session_model`. It promises that the texts
//! are those of the definition `told_of`. It looks at no cell.
#![tactic(auto)]

mod orders;

pub use orders::report;
