//! The program: the files of cases that its words name, one after another.
ghost use Rattle.std.specs.Prelude.{◌≡◌, ◌<◌};

use crate::difference::differences;
use crate::ended::run_case;
use case_files::{Case, CasesFail, read_cases};
use dt_base::Steps;
use std::alloc::Global;
use std::process::ExitCode;
use std::rt::{Env, Files};
use std::sync::ledger::{Blank, Ledger};
use std::{env, fs, io};

/// The number that the program ends with where a file was not read.
const REFUSED: u8 = 2;

/// What came of all files so far.
#[derive(Drop)]
struct Tally {
    /// Whether each file was read.
    are_read: bool,
    /// The first case that failed, with its differences; empty where none did.
    first: String,
}

/// Runs the cases of the files that the program's words name. It ends with 0 where there are files,
/// all were read and no case failed, with 1 where a case failed, and with 2 where a file was
/// refused.
pub fn run_files<R: Files + Env + Print + Eprint + AllocGlobal, L: Ledger>(
    rt: &R,
    blank: Blank,
) -> io::Result<ExitCode>
    requires name { blank.name ≡ L.name }
    requires parts { blank.parts ≡ L.parts }
    requires some { 0 < blank.parts }
{
    let mut steps = Steps::<L>::new(blank);
    let words: Vec<String> = env::args(rt)?.skip(1).collect(rt.alloc())?;
    let mut tally = Tally {
        are_read: !words.is_empty(),
        first: String::new(rt.alloc()),
    };
    for name in &words {
        run_file(rt, name.as_str(), &mut tally, &mut steps)?;
    }
    eprint!(rt; "{}", tally.first)?;
    Ok(exit_code(&tally))
}

fn exit_code(tally: &Tally) -> ExitCode {
    if !tally.are_read {
        ExitCode::from(REFUSED)
    } else if tally.first.is_empty() {
        ExitCode::SUCCESS
    } else {
        ExitCode::FAILURE
    }
}

fn run_file<R: Files + Print + Eprint + AllocGlobal, L: Ledger>(
    rt: &R,
    name: &str,
    tally: &mut Tally,
    steps: &mut Steps<L>,
) -> io::Result<()> {
    let Ok(bytes) = fs::read(rt, name) else {
        tally.are_read = false;
        return eprintln!(rt; "{name}: the file can not be read");
    };
    match read_cases(rt.alloc(), &bytes) {
        Ok(cases) => run_cases(rt, name, &cases, tally, steps),
        Err(CasesFail::Wrong(line, wrong)) => {
            tally.are_read = false;
            eprintln!(rt; "{name}, line {line}: {}", wrong.message())
        }
        Err(CasesFail::NoMemory(error)) => Err(io::Error::from(error)),
    }
}

/// Runs the cases of one file, and tells how many there are.
fn run_cases<R: Print + Eprint + AllocGlobal, L: Ledger>(
    rt: &R,
    name: &str,
    cases: &[Case],
    tally: &mut Tally,
    steps: &mut Steps<L>,
) -> io::Result<()> {
    let mut failed = 0u64;
    for case in cases {
        if !is_right(rt, name, case, tally, steps)? {
            failed = failed.saturating_add(1);
        }
    }
    let all = cases.len();
    if failed == 0 {
        println!(rt; "{name}: {all} cases")
    } else {
        println!(rt; "{name}: {failed} of {all} cases fail")
    }
}

/// Whether a run of the case gives what it wants. The first that does not is kept with all its
/// differences, and any other is told by its name.
fn is_right<R: Eprint + AllocGlobal, L: Ledger>(
    rt: &R,
    file: &str,
    case: &Case,
    tally: &mut Tally,
    steps: &mut Steps<L>,
) -> io::Result<bool> {
    let alloc: Global = rt.alloc();
    let told = differences(alloc, case, run_case(alloc, case, steps)?)?;
    if told.is_empty() {
        return Ok(true);
    }
    let name = case.name.as_str();
    let line = case.line;
    if tally.first.is_empty() {
        tally.first = format!(in alloc; "FAILED {file}, line {line}: {name}\n{told}")?;
    } else {
        eprintln!(rt; "FAILED {file}, line {line}: {name}")?;
    }
    Ok(false)
}
