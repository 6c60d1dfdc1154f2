//! The grammar as a machine that takes one token at a time, and the lemmas that tie the two.
//!
//! - `laws`: what follows from the grammar alone, each law on a function of its own.
//!
//! `specs/Machine.antt` has the machine, over plain lists. `proofs/` has its lemmas: it answers
//! only what the grammar spells (`Sound`), all of that (`Complete`), and each of its states can be
//! completed, so that what it refuses begins no script (`Viable`). It runs nothing but its laws,
//! and stands on `run_model`, whose relation says which tokens spell which script.
#![tactic(auto)]

pub mod laws;
