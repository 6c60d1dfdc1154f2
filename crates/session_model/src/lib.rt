//! The meaning of expressions, statements and whole runs, as definitions over trees, plain
//! states, files and bytes.
//!
//! - `Binding`: how a call's arguments find their formals. `Form`, `Written`, `Items`: what of an
//!   expression, and of the items of a call, is looked at as it is written.
//! - `Meanings`: what is meant by an expression, an argument, a bracket, as records; `Meaning`
//!   fills them from a tree by one fold.
//! - `Expression`: the type and the value of chains of operators and of calls.
//! - `Query`: the order in which a bracket is looked at, and chains of brackets. Its steps are
//!   `Asked` (the arguments), `Found` (i), `Second` (j; with `Shapes`, `Columns`) and `Assigned`.
//!   `Served` tells which forms are served.
//! - `Calls`, `Set`: table functions and commands.
//! - `Value`, `Session`, `Effect`, `Statement`: what a statement does in a state, or its first
//!   fault.
//! - `World`, `Evaluation`: what a script does to files and sinks, statement by statement.
//!
//! It runs nothing. It stands on `expr_model` (operators, functions, rows and lengths),
//! `dt_model` (states), `assign_model` (what an assignment makes of a table), `run_model` (files
//! and printed text), `func_table` (the tables of calls) and on what `dt_world` says of files and
//! sinks. Its proofs hold examples of expressions and brackets, each computed.
#![tactic(auto)]
