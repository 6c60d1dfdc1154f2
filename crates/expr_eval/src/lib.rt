//! What expressions give where a vector is wanted: a type, and a value.
//!
//! - `check` gives the type of an expression, or its first fault, and looks at no cell.
//! - `eval` gives its value with its warnings, or its first fault.
//! - `kinds_of_each`, `values_of_each` and `warns_of_values` do the same for a list of arguments.
//! - `Scope` is what an expression meets, and `Vars` the script's names in it.
//! - `is_column` and `row_column` look a column up by its name, for what names columns.
//!
//! It is the name under which statements and brackets find what stands in `expr_scope` (what an
//! expression meets), `expr_check` (types) and `expr_value` (values), whose contracts promise it.
#![tactic(auto)]

pub use expr_check::{check, kinds_of_each};
pub use expr_scope::{Scope, Vars, is_column, row_column};
pub use expr_value::{eval, values_of_each, warns_of_values};
