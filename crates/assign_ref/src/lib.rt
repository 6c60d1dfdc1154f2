//! Assignment by reference: the change of a table that targets make, or the first fault.
//!
//! - `Target`: a column's name, and the value that it gets, or none where the column goes.
//! - `change_of` gives the change of a table for targets and rows, with the warnings of the
//! values, or
//!   the first fault (`ChangeFail`). It only reads the table.
//!
//! It stands on `assign_model`, whose `assigned` says what the change makes of the table, and on
//! `dt_table`, whose `apply` makes it. It promises that the change fits the table, that it
//! makes the
//! assigned table, and which fault comes exactly when.
#![tactic(auto)]

mod change;
mod fail;
mod faults;
mod target;
mod values;

pub use change::change_of;
pub use fail::ChangeFail;
pub use target::Target;
