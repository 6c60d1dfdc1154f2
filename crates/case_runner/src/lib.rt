//! Runs cases of scripts, and tells those that do not give what they want.
//!
//! - `run_files` is a whole program: it runs the cases of the files that its words name, and tells
//!   on standard output, a line a file, how many there are. Where one fails, the others' names and
//!   then all of the first one's differences stand on standard error.
//! - `folder` is what a case is run over: files in memory that remember which names were written.
//! - `ended` runs one case, and `difference` compares what it left with what is wanted.
//!
//! It stands on `dt_run` for the run and on `case_files` for the cases. It is for tests, and
//! promises nothing but safety: `wrong_cases` runs cases that must fail.
#![tactic(auto)]

mod difference;
mod ended;
mod folder;
mod program;

pub use program::run_files;
