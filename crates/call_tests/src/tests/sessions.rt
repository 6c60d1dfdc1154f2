ghost use Rattle.std.specs.Prelude.{◌≡◌, ◌<◌};

use dt_base::{Code, Steps};
use dt_script::{Stmt, parse};
use dt_session::{ExecFail, RunFail, Session, run_script};
use dt_world::{MemFiles, MemSink};
use std::alloc::{AllocError, Global};
use std::marker::Brand;
use std::process::Abort;
use std::sync::ledger::{Blank, Ledger};
use std::test::Fail;

/// A session over an empty folder in memory.
#[derive(Drop)]
struct Place {
    session: Session,
    files: MemFiles,
    out: MemSink,
    err: MemSink,
}

/// How a statement ended, in words; how many tables live then; and how many bytes were put so far.
type Seen = (&'static str, usize, usize);

fn new_place(alloc: Global) -> Place {
    Place {
        session: Session::new(alloc),
        files: MemFiles::new(alloc, Vec::new(alloc), Vec::new(alloc)),
        out: MemSink::new(alloc, Vec::new(alloc)),
        err: MemSink::new(alloc, Vec::new(alloc)),
    }
}

fn word_of(code: Code) -> &'static str {
    match code {
        Code::E02 => "E02",
        _ => "another fault",
    }
}

fn answer_of(answer: Result<(), ExecFail>) -> &'static str {
    match answer {
        Ok(()) => "done",
        Err(ExecFail::Stop(fault)) => word_of(fault.code),
        Err(ExecFail::ReadFault) | Err(ExecFail::WriteFault) => "cut off",
        Err(ExecFail::NoMemory(_)) => "cut off",
    }
}

/// Runs one statement, and tells what stands then.
fn run_one<L: Ledger>(place: &mut Place, stmt: &Stmt, steps: &mut Steps<L>) -> Seen {
    let answer = place.session.exec(
        stmt,
        &mut place.files,
        &mut place.out,
        &mut place.err,
        steps,
    );
    (
        answer_of(answer),
        place.session.heap().live(),
        place.out.bytes().len(),
    )
}

/// Runs each statement of a script, also those behind one that is refused, and tells what stands
/// after each; nothing for a text that is no script.
fn run_each<L: Ledger, R: Abort>(
    rt: &R,
    alloc: Global,
    place: &mut Place,
    text: &str,
    steps: &mut Steps<L>,
) -> Result<Vec<Seen>, AllocError> {
    let bytes = text.as_bytes();
    assert!(rt; bytes.len() <= 1_048_576);
    let mut seen = Vec::new(alloc);
    let Ok(script) = parse(alloc, bytes) else {
        return Ok(seen);
    };
    for stmt in script.stmts.as_slice() {
        seen.push(run_one(place, stmt, steps))?;
    }
    Ok(seen)
}

const NAMES_AND_A_COPY: &str = "a <- data.table(v = 1L, \"q\")\nb <- a\nrm(a)\nb\nc <- copy(b)\n";

const BRACKETS: &str =
    "D <- data.table(a = 1:2)\nE <- D[]\nF <- D[,][]\nrm(D)\nG <- E[TRUE]\nG <- E[, .(a)]\n\
    x <- E[, a]\nE\nH <- (E[])\ncopy(H)\n(H)\n";

/// An empty bracket gives one more name of the same table; any other bracket a table of its own, or
/// a vector. A table prints as three lines of five bytes.
fn check_brackets<L: Ledger, R: Abort>(
    rt: &R,
    alloc: Global,
    steps: &mut Steps<L>,
) -> Result<(), Fail> {
    let mut place = new_place(alloc);
    let seen = run_each(rt, alloc, &mut place, BRACKETS, steps)?;
    let want = [
        ("done", 1, 0),
        ("done", 1, 0),
        ("done", 1, 0),
        ("done", 1, 0),
        ("done", 2, 0),
        ("done", 2, 0),
        ("done", 2, 0),
        ("done", 2, 15),
        ("done", 2, 15),
        ("done", 2, 30),
        ("done", 2, 45),
    ];
    assert_eq!(rt; seen.as_slice(), want.as_slice());
    Ok(())
}

/// A table lives as long as one name is bound to it, an alias makes none, and a copy makes one. A
/// statement that is refused leaves as many as before, and puts nothing.
fn check_lives<L: Ledger, R: Abort>(rt: &R, alloc: Global, blank: Blank) -> Result<(), Fail>
    requires name { blank.name ≡ L.name }
    requires parts { blank.parts ≡ L.parts }
    requires some { 0 < blank.parts }
{
    let mut steps = Steps::<L>::new(blank);
    let mut place = new_place(alloc);
    let seen = run_each(rt, alloc, &mut place, NAMES_AND_A_COPY, &mut steps)?;
    let want = [
        ("done", 1, 0),
        ("done", 1, 0),
        ("done", 1, 0),
        ("done", 1, 16),
        ("done", 2, 16),
    ];
    assert_eq!(rt; seen.as_slice(), want.as_slice());
    let seen = run_each(
        rt,
        alloc,
        &mut place,
        "rm(nosuch)\nrm(a)\nrm(c)\n",
        &mut steps,
    )?;
    let want = [("E02", 2, 16), ("E02", 2, 16), ("done", 1, 16)];
    assert_eq!(rt; seen.as_slice(), want.as_slice());
    assert_eq!(rt; place.err.bytes().len(), 0);
    check_brackets(rt, alloc, &mut steps)
}

/// The line of a refused statement, how many were done before it, and how it ended.
fn told(answer: Result<(), RunFail>) -> Option<(u32, u64, &'static str)> {
    match answer {
        Ok(()) => None,
        Err(RunFail { line, done, cause }) => Some((line, done, answer_of(Err(cause)))),
    }
}

/// Its third statement is refused, on the second line.
const STOPS: &str = "a <- data.table(v = 1L)\nb <- a; rm(nosuch)\nprint(b)\n";

/// A script ends at its first fault, and the statements before it stand.
fn check_stop<L: Ledger, R: Abort>(rt: &R, alloc: Global, blank: Blank) -> Result<(), Fail>
    requires name { blank.name ≡ L.name }
    requires parts { blank.parts ≡ L.parts }
    requires some { 0 < blank.parts }
{
    let mut steps = Steps::<L>::new(blank);
    let mut place = new_place(alloc);
    let bytes = STOPS.as_bytes();
    assert!(rt; bytes.len() <= 1_048_576);
    let answer = run_script(
        &mut place.session,
        bytes,
        &mut place.files,
        &mut place.out,
        &mut place.err,
        &mut steps,
    );
    assert_eq!(rt; told(answer), Some((2, 2, "E02")));
    assert_eq!(rt; place.session.heap().live(), 1);
    Ok(())
}

#[test]
fn tables_live_as_long_as_their_names(rt: HostRuntime) -> Result<(), Fail> {
    check_lives::<Brand, HostRuntime>(&rt, rt.alloc(), Blank::new(1))
}

#[test]
fn scripts_end_at_their_first_fault(rt: HostRuntime) -> Result<(), Fail> {
    check_stop::<Brand, HostRuntime>(&rt, rt.alloc(), Blank::new(1))
}
