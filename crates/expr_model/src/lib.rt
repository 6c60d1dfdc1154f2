//! What operators, functions and names give, as definitions over plain lists of cells and plain
//! tables.
//!
//! - `Surroundings`: what an expression meets, and what a name gives there.
//! - `Operators`: the operators, with `%in%` and `:`, on types and on vectors.
//! - `Functions`: what a function gives for its arguments, on types and on vectors.
//!
//! It runs nothing and knows nothing of trees; `session_model` has the meaning of whole
//! expressions. Contracts of the crates that value expressions cite it, and a reader checks it
//! against docs/LANGUAGE.md. It stands on `dt_model` and `vector_model` (operators and functions
//! on vectors), on `row_model` (chosen rows) and on `func_table` (the tables of calls).
#![tactic(auto)]
