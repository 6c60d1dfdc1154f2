//! The two sides of an assignment, and what they make of a table.
//!
//! - `left_names` gives the names on a left side, or tells that its form is none.
//! - `right_side` tells what a right side is as it is written (`Side`); `call_names` and
//!   `call_side` are both sides of the call of `:=`. `check_right` looks at its types, and
//!   `value_right` gives its values (`Values`), all over one scope.
//! - `assigned_by` makes the change of a table (`Assigned`) for names, rows and values.
//! - `name_at`, `is_among` and `check_filled` look at names, for all who name columns.
//!
//! It stands on `expr_eval` for values and on `assign_ref` for the change, and knows no bracket, no
//! statement and no name of a table: brackets and the command `set` stand on it. It promises
//! exactly the steps of session_model, Assigned, with their faults in that order. A right side is
//! gone through once for its types and once for its values.
#![tactic(auto)]

mod assigned;
mod left;
mod names;
mod side;
mod targets;
mod values;

pub use assigned::{Assigned, assigned_by};
pub use left::left_names;
pub use names::{check_filled, is_among, name_at};
pub use side::{Side, call_names, call_side, is_null, right_side};
pub use values::{Values, check_right, right_warns, value_right};
