//! Chosen rows and common lengths, as definitions over plain lists of cells.
//!
//! - `Rows`: the rows that the i of a bracket chooses.
//! - `Lengths`: the lengths of vectors that stand side by side.
//!
//! It runs nothing and knows nothing of trees or names. Contracts of `row_choice` and `dt_query`
//! cite it, and a reader checks it against docs/LANGUAGE.md, section "Brackets".
#![tactic(auto)]
