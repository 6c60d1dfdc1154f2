//! The top call: from words to what is put, and a status.
ghost use Rattle.std.specs.Prelude.{◌≡◌, ◌≤◌, length, map, string_bytes, false};
ghost use Rattle.file_value.specs.Reads.{files_seen};
ghost use Rattle.dt_session.specs.Outside.{outside, sink_seen};
ghost use Rattle.dt_run.specs.Ending.{IsAskedEnd, IsRun, IsScriptEnd};
ghost use Rattle.dt_run.specs.Given.{meant, texts};
ghost use Rattle.dt_run.specs.Words.{LacksScript, all_asked};

use crate::check::check_script;
use crate::status::{Status, status_for};
use crate::telling::{tell_absent, tell_too_long, tell_usage};
use crate::words::{Asked, asked_by, named_words};
use dt_base::Steps;
use dt_base::limits::MAX_SCRIPT_BYTES;
use dt_session::{Session, run_script};
use dt_world::{Files, ReadFail, Sink};
use std::alloc::Global;
use std::sync::ledger::Ledger;

/// Runs the script of these bytes on an empty session.
fn run_bytes<F: Files, O: Sink, E: Sink, L: Ledger>(
    alloc: Global,
    bytes: &[u8],
    files: &mut F,
    out: &mut O,
    err: &mut E,
    steps: &mut Steps<L>,
) -> Status
    requires { length bytes.now ≤ MAX_SCRIPT_BYTES }
    ensures { IsScriptEnd false bytes.now
        (outside (files_seen F.held F.read_faults F.misses F.longs F.write_faults files.old)
        (sink_seen O.bytes O.faults out.old) (sink_seen E.bytes E.faults err.old))
        (outside (files_seen F.held F.read_faults F.misses F.longs F.write_faults files.new)
        (sink_seen O.bytes O.faults out.new) (sink_seen E.bytes E.faults err.new))
        result }
{
    let mut session = Session::new(alloc);
    match run_script(&mut session, bytes, files, out, err, steps) {
        Ok(()) => Status::Done,
        Err(fail) => status_for(&fail.cause),
    }
}

/// Runs the script of these bytes, or only reads it.
fn run_or_check<F: Files, O: Sink, E: Sink, L: Ledger>(
    alloc: Global,
    bytes: &[u8],
    is_check: bool,
    files: &mut F,
    out: &mut O,
    err: &mut E,
    steps: &mut Steps<L>,
) -> Status
    requires { length bytes.now ≤ MAX_SCRIPT_BYTES }
    ensures { IsScriptEnd is_check bytes.now
        (outside (files_seen F.held F.read_faults F.misses F.longs F.write_faults files.old)
        (sink_seen O.bytes O.faults out.old) (sink_seen E.bytes E.faults err.old))
        (outside (files_seen F.held F.read_faults F.misses F.longs F.write_faults files.new)
        (sink_seen O.bytes O.faults out.new) (sink_seen E.bytes E.faults err.new))
        result }
{
    if is_check {
        check_script(alloc, bytes, err)
    } else {
        run_bytes(alloc, bytes, files, out, err, steps)
    }
}

/// Reads the script that is asked for, and runs it or only reads it.
fn run_asked<F: Files, O: Sink, E: Sink, L: Ledger>(
    alloc: Global,
    asked: &Asked<'_>,
    files: &mut F,
    out: &mut O,
    err: &mut E,
    steps: &mut Steps<L>,
) -> Status
    ensures { IsAskedEnd (Some (meant asked.now))
        (outside (files_seen F.held F.read_faults F.misses F.longs F.write_faults files.old)
        (sink_seen O.bytes O.faults out.old) (sink_seen E.bytes E.faults err.old))
        (outside (files_seen F.held F.read_faults F.misses F.longs F.write_faults files.new)
        (sink_seen O.bytes O.faults out.new) (sink_seen E.bytes E.faults err.new))
        result }
{
    match files.read(asked.script, MAX_SCRIPT_BYTES) {
        Ok(bytes) => run_or_check(alloc, &bytes, asked.is_check, files, out, err, steps),
        Err(ReadFail::Absent) => tell_absent(alloc, asked.script, err),
        Err(ReadFail::TooLong) => tell_too_long(alloc, asked.script, err),
        Err(ReadFail::Failed) => Status::ReadFault,
        Err(ReadFail::NoMemory(_)) => Status::NoMemory,
    }
}

/// Runs the program on all the words, its name being the first.
fn run_named<F: Files, O: Sink, E: Sink, L: Ledger>(
    alloc: Global,
    words: &[&str],
    files: &mut F,
    out: &mut O,
    err: &mut E,
    steps: &mut Steps<L>,
) -> Status
    ensures ends { IsAskedEnd (all_asked (texts words.now))
        (outside (files_seen F.held F.read_faults F.misses F.longs F.write_faults files.old)
        (sink_seen O.bytes O.faults out.old) (sink_seen E.bytes E.faults err.old))
        (outside (files_seen F.held F.read_faults F.misses F.longs F.write_faults files.new)
        (sink_seen O.bytes O.faults out.new) (sink_seen E.bytes E.faults err.new))
        result }
    ensures usage { result ≡ Status.Usage → LacksScript (texts words.now) }
{
    match asked_by(alloc, words) {
        Ok(Some(asked)) => run_asked(alloc, &asked, files, out, err, steps),
        Ok(None) => tell_usage(err),
        Err(_) => Status::NoMemory,
    }
}

/// Runs the program on the words after its name: `SCRIPT` is run, and behind `--check` only read.
///
/// Whenever it answers `Done`, `Stopped` or `Usage`, the files, the bytes put on `out` and `err`
/// and the status are exactly those of the plain evaluation of the words. At any other answer they
/// are, for one number of statements, what so many give and a first part of what the next one
/// gives, or a first part of the one line that the plain evaluation tells. `Usage` comes by the
/// words alone, `ReadFault` only where a read failed, `WriteFault` only where a put or a write
/// failed, and `NoMemory` where memory was wanting. Of the counts of what failed only the one that
/// is answered may have risen, so that none of these stands for another.
///
/// At `Stopped` what came on `err` is the lines of warnings, and then the line of one fault. Where
/// the files tell nothing of what they hold, that fault is E15 or E16 only where `files` counted a
/// read that found no file, or one that was too long.
///
/// dtq's own rule, docs/LANGUAGE.md, section What runs today.
pub fn run<F: Files, O: Sink, E: Sink, L: Ledger>(
    alloc: Global,
    words: &[String],
    files: &mut F,
    out: &mut O,
    err: &mut E,
    steps: &mut Steps<L>,
) -> Status
    ensures { IsRun (map string_bytes words.now)
        (outside (files_seen F.held F.read_faults F.misses F.longs F.write_faults files.old)
        (sink_seen O.bytes O.faults out.old) (sink_seen E.bytes E.faults err.old))
        (outside (files_seen F.held F.read_faults F.misses F.longs F.write_faults files.new)
        (sink_seen O.bytes O.faults out.new) (sink_seen E.bytes E.faults err.new))
        result }
{
    match named_words(alloc, words) {
        Ok(words) => run_named(alloc, &words, files, out, err, steps),
        Err(_) => Status::NoMemory,
    }
}
