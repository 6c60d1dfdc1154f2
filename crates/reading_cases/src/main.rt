//! Reads the scripts of the files of cases that its words name, and compares what they are read to.
//!
//! - `files`: the cases of a file, one after another.
//! - `judge`: one case, whose script is read to its trees, or to its tokens where its words say so.
//! - `trees` and `tokens`: what a script is read to, spelled; or the line that tells its fault.
//! - `long`: scripts that are too long to be written down, for the word `--long`.
//!
//! It stands on `dt_script` and `dt_tokens`, and promises nothing: it is a test of both, so that
//! they are proved once. It puts a line for each file with the number of its cases, so that a case
//! that is lost is missed. Where one is wrong the status is 1, and standard error has the others'
//! names and then what the first one has and wants.
#![tactic(auto)]

mod files;
mod judge;
mod long;
mod tally;
mod tokens;
mod trees;

use crate::files::run_file;
use crate::long::run_long;
use crate::tally::Tally;
use std::process::ExitCode;
use std::rt::{Env, Files};
use std::{env, io};

/// Does what a word says.
fn run_word<R: Files + Print + Eprint + AllocGlobal>(
    rt: &R,
    word: &str,
    tally: &mut Tally,
) -> io::Result<()> {
    if word == "--long" {
        run_long(rt, tally)
    } else {
        run_file(rt, word, tally)
    }
}

/// Does what each word says, and tells what was wrong. It ends with 1 where anything was.
fn run_words<R: Files + Env + Print + Eprint + AllocGlobal>(rt: &R) -> io::Result<ExitCode> {
    let words: Vec<String> = env::args(rt)?.skip(1).collect(rt.alloc())?;
    let mut tally = Tally::new(rt.alloc());
    for word in &words {
        run_word(rt, word.as_str(), &mut tally)?;
    }
    eprint!(rt; "{}", tally.first())?;
    Ok(if tally.wrong() == 0 {
        ExitCode::SUCCESS
    } else {
        ExitCode::FAILURE
    })
}

fn main(rt: HostRuntime) -> io::Result<ExitCode> {
    run_words(&rt)
}
