//! Runs the cases of the files that its words name: each a script, and what a run of it must put
//! and write. A file of `data/` is run where `args` names it and `stdout` has the number of its
//! cases.
//!
//! It is `case_runner` as a program, and promises nothing: the cases are tests of whole runs.
#![tactic(auto)]

use case_runner::run_files;
use std::io;
use std::marker::Brand;
use std::process::ExitCode;
use std::sync::ledger::Blank;

fn main(rt: HostRuntime) -> io::Result<ExitCode> {
    run_files::<HostRuntime, Brand>(&rt, Blank::new(1))
}
