//! Runs cases of which each wants something wrong, so that a runner that passes over a difference
//! is seen: `stdout` says how many of how many fail, and `status` that the program ends with 1.
//!
//! It is `case_runner` as a program, and promises nothing.
#![tactic(auto)]

use case_runner::run_files;
use std::io;
use std::marker::Brand;
use std::process::ExitCode;
use std::sync::ledger::Blank;

fn main(rt: HostRuntime) -> io::Result<ExitCode> {
    run_files::<HostRuntime, Brand>(&rt, Blank::new(1))
}
