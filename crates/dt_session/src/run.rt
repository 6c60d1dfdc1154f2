ghost use Rattle.std.specs.Prelude.{◌≤◌, length};
ghost use Rattle.dt_base.specs.declared.limits.TheConstants.{MAX_SCRIPT_BYTES};
ghost use Rattle.file_value.specs.Reads.{files_seen};
ghost use Rattle.dt_session.specs.Execs.{AreStmts, IsLine, IsScriptRun};
ghost use Rattle.dt_session.specs.Outside.{outside, sink_seen};

use crate::fail::{ExecFail, RunFail};
use crate::refusal::{stopped, tell_refusal};
use crate::session::Session;
use dt_base::Steps;
use dt_script::{Stmt, parse};
use dt_world::{Files, Sink};
use std::sync::ledger::Ledger;
use table_heap::laws::same_heaps;

/// Runs one statement, and puts the line of its fault.
fn run_line<F: Files, O: Sink, E: Sink, L: Ledger>(
    session: &mut Session,
    stmt: &Stmt,
    files: &mut F,
    out: &mut O,
    err: &mut E,
    steps: &mut Steps<L>,
) -> Result<(), ExecFail>
    ensures { IsLine stmt.now session.old session.new
        (outside (files_seen F.held F.read_faults F.misses F.longs F.write_faults files.old)
        (sink_seen O.bytes O.faults out.old) (sink_seen E.bytes E.faults err.old))
        (outside (files_seen F.held F.read_faults F.misses F.longs F.write_faults files.new)
        (sink_seen O.bytes O.faults out.new) (sink_seen E.bytes E.faults err.new))
        result }
{
    match session.exec(stmt, files, out, err, steps) {
        Ok(()) => Ok(()),
        Err(ExecFail::Stop(fault)) => Err(stopped(session.alloc(), stmt.line, fault, err)),
        Err(ExecFail::ReadFault) => Err(ExecFail::ReadFault),
        Err(ExecFail::WriteFault) => Err(ExecFail::WriteFault),
        Err(ExecFail::NoMemory(error)) => Err(ExecFail::NoMemory(error)),
    }
}

/// Runs statements one after another until the first that is refused.
fn run_stmts<F: Files, O: Sink, E: Sink, L: Ledger>(
    session: &mut Session,
    stmts: &[Stmt],
    files: &mut F,
    out: &mut O,
    err: &mut E,
    steps: &mut Steps<L>,
) -> Result<(), RunFail>
    ensures { AreStmts stmts.now session.old session.new
        (outside (files_seen F.held F.read_faults F.misses F.longs F.write_faults files.old)
        (sink_seen O.bytes O.faults out.old) (sink_seen E.bytes E.faults err.old))
        (outside (files_seen F.held F.read_faults F.misses F.longs F.write_faults files.new)
        (sink_seen O.bytes O.faults out.new) (sink_seen E.bytes E.faults err.new))
        result }
{
    same_heaps();
    let mut done: u64 = 0;
    for stmt in stmts {
        match run_line(session, stmt, files, out, err, steps) {
            Ok(()) => done += 1,
            Err(cause) => {
                return Err(RunFail {
                    line: stmt.line,
                    done,
                    cause,
                });
            }
        }
    }
    Ok(())
}

/// Reads the bytes of a script, and runs its statements one after another until the first that is
/// refused. The line of the fault is put on `err`, behind the lines of the warnings of those that
/// were done.
///
/// There are at most 1,048,576 bytes. A script that is refused runs no statement: E18 with line 0,
/// and E01, E21 and E22 with their own. When a statement is refused the session stands as after the
/// ones before it, which `done` counts.
pub fn run_script<F: Files, O: Sink, E: Sink, L: Ledger>(
    session: &mut Session,
    bytes: &[u8],
    files: &mut F,
    out: &mut O,
    err: &mut E,
    steps: &mut Steps<L>,
) -> Result<(), RunFail>
    requires { length bytes.now ≤ MAX_SCRIPT_BYTES }
    ensures { IsScriptRun bytes.now session.old session.new
        (outside (files_seen F.held F.read_faults F.misses F.longs F.write_faults files.old)
        (sink_seen O.bytes O.faults out.old) (sink_seen E.bytes E.faults err.old))
        (outside (files_seen F.held F.read_faults F.misses F.longs F.write_faults files.new)
        (sink_seen O.bytes O.faults out.new) (sink_seen E.bytes E.faults err.new))
        result }
{
    match parse(session.alloc(), bytes) {
        Ok(script) => run_stmts(session, script.stmts.as_slice(), files, out, err, steps),
        Err(fail) => Err(tell_refusal(session.alloc(), fail, err)),
    }
}
