//! The meaning of cells, vectors and tables, as definitions over plain lists.
//!
//! Contracts of the crates above cite them, and a reader checks them against docs/LANGUAGE.md.
//! It runs nothing, and stands on `dt_base`, whose `Cell`, `ColType` and `Fault` are its words too.
#![tactic(auto)]
