//! What the commands `set` and `setnames` do, computed before any of it is done.
//!
//! - `set` answers `set(D, i, j, value)`: the columns that j names get the value in the rows that i
//!   names.
//! - `set_names` answers `setnames(D, old, new)`: columns get other names.
//!
//! It stands on `arg_bind` for arguments, on `expr_eval` for their types and values over the
//! script's names, on `assign_sides` for the assignment, and on `stmt_change` for effects. It
//! changes nothing: the change of the table of D is made when the statement is done. It promises
//! exactly the effect or the first fault of the definitions `set_effect` and `set_names_effect`,
//! and that the change fits the table that it was computed from. Want of memory is the one other
//! answer, and no fault blames a file.
#![tactic(auto)]

mod arguments;
mod places;
mod rename_call;
mod set_call;

pub use rename_call::set_names;
pub use set_call::set;
