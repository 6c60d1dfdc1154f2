//! The type of an expression where a vector is wanted.
//!
//! - `check` gives the type of an expression, or its first fault, and looks at no cell.
//! - `kinds_of_each` does the same for a list of arguments.
//!
//! It stands on `expr_scope` for names and arguments, on `expr_operate` for the types of
//! operators, and on `arg_bind` for the binding of arguments; the types of functions are its own.
//! It promises exactly the type `check_of` of `session_model`, Meaning: the fault is the first in
//! the order of the definition, and no fault is left out or added. Want of memory is the one free
//! answer. No error blames a file. A tree is gone through once.
#![tactic(auto)]

mod checks;
mod kinds;

pub use checks::{check, kinds_of_each};
