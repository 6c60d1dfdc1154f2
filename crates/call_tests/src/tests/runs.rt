//! The program over files and sinks in memory, where no script of the files of cases gets: a call
//! that fails, a script that is too long, and want of memory.
ghost use Rattle.std.specs.Prelude.{◌≡◌, ◌<◌};

use dt_base::{Steps, Text};
use dt_run::{Status, run};
use dt_world::{Files, MemFiles, MemSink};
use std::alloc::{AllocError, Global};
use std::marker::Brand;
use std::process::Abort;
use std::sync::ledger::{Blank, Ledger};
use std::test::Fail;

/// The numbers of the reads and writes of files that fail, of the puts on `out`, and of those on
/// `err`.
type Failing = (&'static [u64], &'static [u64], &'static [u64]);

const NOTHING: Failing = (&[], &[], &[]);

/// It reads a file with a warning, prints it, writes it, prints it again, and stops.
const SCRIPT: &str = "x <- fread(\"f.csv\")\nprint(x)\nfwrite(x, \"o.csv\")\nx\ny\n";

const CSV: &str = "a,a\n1,2\n";

/// What stands in `o.csv`.
const WRITTEN: &str = "a,a.1\n1,2\n";

/// What stands on `out`: half of a table, a table, one and a half, two.
const HALF: &str = "   a a.1\n";

const ONCE: &str = "   a a.1\n1: 1   2\n";

const MORE: &str = "   a a.1\n1: 1   2\n   a a.1\n";

const TWICE: &str = "   a a.1\n1: 1   2\n   a a.1\n1: 1   2\n";

/// What stands on `err`: half of a warning, a warning, it and half of a fault.
const HALF_WARNED: &str = "Warning W06 at line 1:";

const WARNED: &str = "Warning W06 at line 1: column names repaired\n";

const CUT: &str = "Warning W06 at line 1: column names repaired\nError E02 at line 5";

/// The calls that fail in a run of the script: its status, what stands on `out` and on `err`, and
/// the file that it has written. What stands is what came before the call, and half of what was put
/// last.
const FAILURES: [(Failing, Status, &str, &str, &str); 7] = [
    ((&[1], &[], &[]), Status::ReadFault, "", "", ""),
    ((&[2], &[], &[]), Status::ReadFault, "", "", ""),
    ((&[3], &[], &[]), Status::WriteFault, ONCE, WARNED, ""),
    ((&[], &[1], &[]), Status::WriteFault, HALF, WARNED, ""),
    ((&[], &[2], &[]), Status::WriteFault, MORE, WARNED, WRITTEN),
    ((&[], &[], &[1]), Status::WriteFault, "", HALF_WARNED, ""),
    ((&[], &[], &[2]), Status::WriteFault, TWICE, CUT, WRITTEN),
];

/// What a run over memory gave.
#[derive(Drop)]
struct Given {
    status: Status,
    files: MemFiles,
    out: MemSink,
    err: MemSink,
}

/// The files `s.dq` and `f.csv`.
fn folder(alloc: Global, script: &[u8], csv: &[u8]) -> Result<Vec<(Text, Vec<u8>)>, AllocError> {
    let mut files = Vec::new(alloc);
    files.push((Text::make(alloc, "s.dq")?, script.to_vec(alloc)?))?;
    files.push((Text::make(alloc, "f.csv")?, csv.to_vec(alloc)?))?;
    Ok(files)
}

/// A run of the script over `f.csv`, in which these calls fail.
fn run_script<L: Ledger>(
    alloc: Global,
    script: &[u8],
    csv: &str,
    failing: Failing,
    steps: &mut Steps<L>,
) -> Result<Given, AllocError> {
    let words = vec![in alloc; String::from_str(alloc, "s.dq")?]?;
    let files = folder(alloc, script, csv.as_bytes())?;
    let mut files = MemFiles::new(alloc, files, failing.0.to_vec(alloc)?);
    let mut out = MemSink::new(alloc, failing.1.to_vec(alloc)?);
    let mut err = MemSink::new(alloc, failing.2.to_vec(alloc)?);
    let status = run(alloc, &words, &mut files, &mut out, &mut err, steps);
    Ok(Given {
        status,
        files,
        out,
        err,
    })
}

fn expect<R: Abort>(rt: &R, given: &Given, status: Status, out: &str, err: &str) {
    assert_eq!(rt; given.out.bytes(), out.as_bytes());
    assert_eq!(rt; given.err.bytes(), err.as_bytes());
    assert_eq!(rt; given.status.number(), status.number());
}

/// The file `o.csv` has these bytes; none is there if they are none.
fn expect_written<R: Abort>(rt: &R, files: &mut MemFiles, bytes: &str) {
    match files.read("o.csv", 4096) {
        Ok(written) => assert_eq!(rt; written.as_slice(), bytes.as_bytes()),
        Err(_) => assert_eq!(rt; bytes.len(), 0),
    }
}

fn check_failures<L: Ledger, R: Abort>(
    rt: &R,
    alloc: Global,
    steps: &mut Steps<L>,
) -> Result<(), Fail> {
    for (failing, status, out, err, file) in FAILURES {
        let mut given = run_script(alloc, SCRIPT.as_bytes(), CSV, failing, steps)?;
        expect(rt, &given, status, out, err);
        expect_written(rt, &mut given.files, file);
    }
    let given = run_script(alloc, b"x <- 1L\nx\nx\n", "", (&[], &[2], &[]), steps)?;
    expect(rt, &given, Status::WriteFault, "[1] 1\n[1]", "");
    Ok(())
}

const TOO_LONG: &str = "Error E16 at line 0: file 's.dq' is longer than 1048576 bytes\n";

fn check_surroundings<L: Ledger, R: Abort>(rt: &R, alloc: Global, blank: Blank) -> Result<(), Fail>
    requires name { blank.name ≡ L.name }
    requires parts { blank.parts ≡ L.parts }
    requires some { 0 < blank.parts }
{
    let mut steps = Steps::<L>::new(blank);
    check_failures(rt, alloc, &mut steps)?;
    let script = vec![in alloc; b' '; 1_048_577]?;
    let given = run_script(alloc, &script, "", NOTHING, &mut steps)?;
    expect(rt, &given, Status::Stopped, "", TOO_LONG);
    Ok(())
}

#[test]
fn failures_and_a_script_that_is_too_long(rt: HostRuntime) -> Result<(), Fail> {
    check_surroundings::<Brand, HostRuntime>(&rt, rt.alloc(), Blank::new(1))
}

const EACH_KIND: &str =
    "library(data.table)\nx <- fread(\"f.csv\")\ny <- x\nz <- copy(x)\nrm(x)\nprint(z)\n\
    fwrite(y, \"o.csv\")\n1L\n";

/// One run with a statement of each kind, which may run out of memory anywhere.
fn run_once<L: Ledger>(alloc: Global, blank: Blank) -> Result<Given, AllocError>
    requires name { blank.name ≡ L.name }
    requires parts { blank.parts ≡ L.parts }
    requires some { 0 < blank.parts }
{
    let mut steps = Steps::<L>::new(blank);
    run_script(alloc, EACH_KIND.as_bytes(), CSV, NOTHING, &mut steps)
}

/// It is run with each allocation failing in turn.
#[test]
fn memory_may_run_out(rt: HostRuntime) {
    let Ok(given) = run_once::<Brand>(rt.alloc(), Blank::new(1)) else {
        return;
    };
    if given.status != Status::NoMemory {
        expect(
            &rt,
            &given,
            Status::Done,
            "   a a.1\n1: 1   2\n[1] 1\n",
            "Warning W06 at line 2: column names repaired\n",
        );
    }
}
