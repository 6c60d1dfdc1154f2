//! The meaning of the functions that give one answer from a vector's cells, as definitions over
//! plain lists of cells: `sum`, `min`, `max`, `any`, `all`, `first`, `last`, `length`.
//!
//! Contracts of the crates above cite them, and a reader checks them against docs/LANGUAGE.md,
//! section "Functions". For each function f there are two: `f_type`, the type of its answer from
//! that of its argument, and `f_value`, the answer with its warnings; both give the first fault in
//! place of it. They go together, by the lemma `f_agrees`: a fault of the type is the fault, and an
//! answer has the type, whatever the cells are.
//!
//! `Faults` has the faults that tell numbers, for all that stands above.
//!
//! It runs nothing, and stands on `dt_model`, where the other functions on vectors stand: `c`,
//! `is.na`, `fifelse` and the three conversions.
#![tactic(auto)]
