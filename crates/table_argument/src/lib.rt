//! The table that a call names by its argument D, and the arguments beside it.
//!
//! - `named_table` gives the Id of that table, or E19 with `D`, E02 or E20; `table_of` lends the
//!   table of a live Id.
//! - `argument` gives the argument that a formal takes behind others; `needed` the same of one that
//!   a call needs.
//!
//! It stands on `arg_bind` for places, and on `table_heap` for names. It promises that the table and
//! the arguments are those that the definitions `table_named` and `argument_for` tell. It changes
//! nothing.
#![tactic(auto)]

mod arguments;

pub use arguments::{argument, named_table, needed, table_of};
