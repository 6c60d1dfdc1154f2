//! From the arguments of a process to the number that it ends with, over any files and sinks.
ghost use Rattle.std.specs.Prelude.{◌≡◌, IfOk, IsErr, MatchResult, map, string_bytes};
ghost use Rattle.std.specs.Vec.Iter.{into_iter_items};
ghost use Rattle.std.specs.IoError.{error_kind};
ghost use Rattle.file_value.specs.Reads.{files_seen};
ghost use Rattle.session_model.specs.World.{world};
ghost use Rattle.dt_session.specs.Outside.{outside, sink_seen};
ghost use Rattle.dt_run.specs.Ending.{IsRun};
ghost use Rattle.dt_run.specs.Exit.{exit_number};
ghost use Rattle.dt_cli.specs.Ending.{IsNumberOf, wordless, words_behind};

use dt_base::Steps;
use dt_run::{Status, run};
use dt_world::{Files, Sink};
use std::alloc::{AllocError, Global};
use std::env::Args;
use std::io;
use std::io::ErrorKind;
use std::sync::ledger::Ledger;

/// The words after the program's name.
fn words_after_name(alloc: Global, all: Args) -> Result<Vec<String>, AllocError>
    ensures { IfOk result (λ v.
        map string_bytes v.items ≡ words_behind (map string_bytes (into_iter_items all))) }
{
    all.skip(1).collect(alloc)
}

/// The status of a run whose arguments could not be had.
fn wordless(kind: ErrorKind) -> Status
    ensures { result ≡ wordless kind }
{
    if kind == ErrorKind::OutOfMemory {
        Status::NoMemory
    } else {
        Status::ReadFault
    }
}

/// Runs the program on the words among these arguments, of which the first is its name. The answer
/// is the number that the process ends with.
fn ended_on<F: Files, O: Sink, E: Sink, L: Ledger>(
    alloc: Global,
    all: Args,
    files: &mut F,
    out: &mut O,
    err: &mut E,
    steps: &mut Steps<L>,
) -> u8
    ensures { IsNumberOf (IsRun (words_behind (map string_bytes (into_iter_items all)))
        (outside (files_seen F.held F.read_faults F.misses F.longs F.write_faults files.old)
        (sink_seen O.bytes O.faults out.old) (sink_seen E.bytes E.faults err.old))
        (outside (files_seen F.held F.read_faults F.misses F.longs F.write_faults files.new)
        (sink_seen O.bytes O.faults out.new) (sink_seen E.bytes E.faults err.new)))
        result }
{
    match words_after_name(alloc, all) {
        Ok(words) => run(alloc, &words, files, out, err, steps).number(),
        Err(_) => Status::NoMemory.number(),
    }
}

/// Runs the program on the arguments of a process. The answer is the number that the process ends
/// with. Where the arguments could not be had, nothing is put.
pub fn ended<F: Files, O: Sink, E: Sink, L: Ledger>(
    alloc: Global,
    all: io::Result<Args>,
    files: &mut F,
    out: &mut O,
    err: &mut E,
    steps: &mut Steps<L>,
) -> u8
    ensures number { MatchResult all
        (λ a. IsNumberOf (IsRun (words_behind (map string_bytes (into_iter_items a)))
        (outside (files_seen F.held F.read_faults F.misses F.longs F.write_faults files.old)
        (sink_seen O.bytes O.faults out.old) (sink_seen E.bytes E.faults err.old))
        (outside (files_seen F.held F.read_faults F.misses F.longs F.write_faults files.new)
        (sink_seen O.bytes O.faults out.new) (sink_seen E.bytes E.faults err.new)))
        result)
        (λ e. result ≡ exit_number (wordless (error_kind e))) }
    ensures nothing { IsErr all →
        world (F.held files.new) (O.bytes out.new) (E.bytes err.new)
        ≡ world (F.held files.old) (O.bytes out.old) (E.bytes err.old) }
{
    match all {
        Ok(all) => ended_on(alloc, all, files, out, err, steps),
        Err(error) => wordless(error.kind()).number(),
    }
}
