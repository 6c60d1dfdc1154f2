//! The value of an expression where a vector is wanted.
//!
//! - `eval` gives the value of an expression with its warnings, or its first fault.
//! - `values_of_each` and `warns_of_values` do the same for a list of arguments.
//!
//! It stands on `expr_scope` for names, literals and arguments, on `expr_operate` for operators,
//! on `vec_funcs` for functions, and on `arg_bind` for the binding of arguments. It promises
//! exactly the value `value_in` of `session_model`, Meaning: the fault is the first in the order
//! of the definition, and no fault is left out or added. Want of memory is the one free answer. No
//! error blames a file. A tree is gone through once. What operators and functions are given as a
//! name is lent and only read; a column is copied where its name is the whole expression, and
//! where `c` joins it.
#![tactic(auto)]

mod applied;
mod operations;
mod values;

pub use applied::warns_of_values;
pub use values::{eval, values_of_each};
