//! The program `dtq`: it runs the script that its words name, or only reads it.
//!
//! - `run`, of `dt_run`, is the whole program over any files and sinks, and `Status` how it ended.
//! - `ending` makes the words out of the arguments of the process, calls `run`, and tells the
//!   number that the process ends with; `main` has it do so over the files and outputs of the
//!   machine.
//!
//! It promises that this number is that of the status which `run` answers on the words after the
//! program's name, all of them, or that of why they could not be had.
#![tactic(auto)]

ghost use Rattle.std.specs.Prelude.{◌≡◌, ◌<◌, MatchResult, map, string_bytes};
ghost use Rattle.std.specs.Vec.Iter.{into_iter_items};
ghost use Rattle.std.specs.IoError.{error_kind};
ghost use Rattle.dt_run.specs.Exit.{exit_number};
ghost use Rattle.dt_run.specs.Run.{IsByWords};
ghost use Rattle.dt_cli.specs.Ending.{IsNumberOf, wordless, words_behind};

mod ending;

use crate::ending::ended;
use dt_base::Steps;
pub use dt_run::{Status, run};
use dt_world::{RealFiles, RealOut};
use std::env::Args;
use std::marker::Brand;
use std::process::ExitCode;
use std::sync::ledger::{Blank, Ledger};
use std::{env, io};

/// The number that the process ends with, once the program ran over the files of the machine and
/// its two standard outputs.
fn ended_here<L: Ledger>(rt: &HostRuntime, all: io::Result<Args>, blank: Blank) -> u8
    requires name { blank.name ≡ L.name }
    requires parts { blank.parts ≡ L.parts }
    requires some { 0 < blank.parts }
    ensures { MatchResult all
        (λ a. IsNumberOf (IsByWords (words_behind (map string_bytes (into_iter_items a)))) result)
        (λ e. result ≡ exit_number (wordless (error_kind e))) }
{
    let mut steps = Steps::<L>::new(blank);
    let mut files = RealFiles::new(rt.alloc(), rt);
    let mut out = RealOut::new(rt.stdout());
    let mut err = RealOut::new(rt.stderr());
    ended(rt.alloc(), all, &mut files, &mut out, &mut err, &mut steps)
}

fn main(rt: HostRuntime) -> ExitCode {
    let all = env::args(&rt);
    ExitCode::from(ended_here::<Brand>(&rt, all, Blank::new(1)))
}
