//! The calls of the language, as tables: their words, what they are, and their arguments.
//!
//! - `Func` and `func_named`: the functions and commands that have a row, of statements or of
//!   expressions. `is_later` tells the calls that the language has and nothing serves yet,
//!   `is_list` the list of a bracket, and `later_named` what a call is that is no served function.
//! - `kind_of`, `arity_of`, `formals`: what a call is, how its arguments are bound, and which it
//!   has; `is_needed` and `is_flag` tell of an argument.
//! - `Slot`: what a call gives for a formal.
//! - `Special` and `special_named`: the names with a meaning of their own in a bracket; `Argument`,
//!   `argument_named` and `is_bracket_argument`: the names of a bracket's arguments.
//! - `Options`: the two options of a session.
//!
//! It stands on nothing. Each table is a definition in specs/, and each function here answers what
//! that definition says, at once, and touches nothing. A further call is a further row in each
//! table.
#![tactic(auto)]

mod argument;
mod formal;
mod func;
mod options;
mod rows;
mod slot;
mod special;

pub use argument::{Argument, argument_named, is_bracket_argument};
pub use formal::{Formal, formal_word, is_flag, is_needed};
pub use func::{
    Arity, Func, Kind, Later, arity_of, formals, func_named, func_word, is_later, is_list, kind_of,
    later_named,
};
pub use options::Options;
pub use slot::Slot;
pub use special::{Special, is_later_special, special_named};
