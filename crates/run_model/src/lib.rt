//! The meaning of scripts, files and printed text, as definitions over plain lists.
//!
//! Contracts of the crates above cite them, and a reader checks them against docs/LANGUAGE.md.
//! It runs nothing. It stands on `dt_model`, on the types of `dt_tree`, and on the records of the
//! crate `csv`, which it cites and does not write again.
#![tactic(auto)]
