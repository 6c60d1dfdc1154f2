//! Tests of calls that no script reaches, or of which a script shows too little.
//!
//! - `runs`: a read, a write or a put that fails; a script past the limit; want of memory.
//! - `sessions`: how many tables live after each statement, and what `run_script` answers.
//! - `groups`: expressions in the surroundings of one group, which `surroundings` makes.
//! - `cases`: files of cases that are none.
//!
//! It promises nothing. They stand here and not in the crates whose calls they make, since a crate
//! with tests is proved twice. Those of columns and tables stand in `table_tests`.
#![tactic(auto)]

#[cfg(test)]
mod tests;
