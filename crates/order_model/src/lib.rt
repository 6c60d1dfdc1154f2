//! The order of rows, as definitions over plain lists: which cell stands before which (`Order`),
//! the place of a row (`Places`), when a key or an index is true, and what a statement leaves of
//! them (`Keys`).
//!
//! Contracts of the crates above cite them, and a reader checks them against docs/LANGUAGE.md.
//!
//! - `laws`: what follows from these definitions alone, each law on a function of its own.
//!
//! It stands on `dt_model`, and runs nothing but its laws.
#![tactic(auto)]

pub mod laws;
