//! Tables in the order of some of their columns, with a key, and indices of them, also those that a
//! statement adds by itself.
//!
//! - `keyed` gives a new table in the order of some columns, which are its key then; `set_key` and
//!   `set_owned_key` do that to the table itself, and sort nothing where its rows already stand so.
//! - `ordered` gives a new table whose rows are in any order of some columns, without a key.
//! - `make_index` gives the order of some columns as an index, and leaves the rows.
//! - `probe_of` looks whether an i is a column beside a value (`Probe`), `begins_with` whether the
//!   key or an index begins with a column, and `auto_index_for` whether that column gets an index.
//!
//! It stands on `row_order` and `dt_table`, on the trees of `dt_tree`, and on the definitions of
//! `order_model` and `session_model`: it promises that a table is then what `setkey` or `setorder`
//! leave (`key_set`, `order_set`), that an index is one of the table's (`IsIndex`), that a table is
//! as it was where memory was wanted, how many cells each call touches, and exactly the column of
//! `probe_in` and `adds_index`. A sort takes one pass for each column.
#![tactic(auto)]

mod indices;
mod keys;
mod orders;
mod probes;

pub use indices::make_index;
pub use keys::{keyed, set_key, set_owned_key};
pub use orders::ordered;
pub use probes::{Probe, ProbeOp, auto_index_for, begins_with, probe_of};
