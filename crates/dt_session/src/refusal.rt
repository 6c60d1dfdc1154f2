//! The one line that tells a fault, and how the refusal of a script's reading is told.
ghost use Rattle.std.specs.Prelude.{◌≡◌, ◌≢◌, ◌≤◌, IfOk, false, ⊤};
ghost use Rattle.eval_fail.specs.Answers.{is_of_file};
ghost use Rattle.dt_world.specs.Causes.{Rose};
ghost use Rattle.run_model.specs.Messages.{printed_fault};
ghost use Rattle.vector_model.specs.Faults.{number_fault};
ghost use Rattle.dt_session.specs.Answers.{CountsOwn, IsOwn, IsStopped};
ghost use Rattle.dt_session.specs.Outside.{sink_seen};
ghost use Rattle.dt_session.specs.Puts.{IsPut};
ghost use Rattle.dt_session.specs.Refusals.{IsRefusalOf, RefusalEnd};

use crate::fail::{ExecFail, RunFail};
use crate::puts::put_piece;
use dt_base::{Code, Fault, Text};
use dt_print::fault_line;
use dt_script::ParseFail;
use dt_world::{Sink, WriteFail};
use std::alloc::{AllocError, Global};

/// Puts the line of a fault.
fn put_fault<E: Sink>(alloc: Global, line: u32, fault: &Fault, err: &mut E) -> Result<(), WriteFail>
    ensures { IsPut (sink_seen E.bytes E.faults err.old) (sink_seen E.bytes E.faults err.new)
        (printed_fault line fault.now) result }
{
    match fault_line(alloc, line, fault) {
        Ok(text) => put_piece(err, &text),
        Err(error) => Err(WriteFail::NoMemory(error)),
    }
}

/// Why a statement ended early whose fault has this line: the fault, once its line is put.
pub fn stopped<E: Sink>(alloc: Global, line: u32, fault: Fault, err: &mut E) -> ExecFail
    ensures put { IsStopped line fault (E.bytes err.old) (E.bytes err.new) result }
    ensures own { is_of_file fault.code ≡ false → IsOwn result }
    ensures failed { result ≡ ExecFail.WriteFault → Rose (E.faults err.old) (E.faults err.new) }
    ensures quiet { CountsOwn ⊤ (E.faults err.new ≡ E.faults err.old) result }
    ensures faults { E.faults err.old ≤ E.faults err.new }
{
    match put_fault(alloc, line, &fault, err) {
        Ok(()) => ExecFail::Stop(fault),
        Err(WriteFail::Failed) => ExecFail::WriteFault,
        Err(WriteFail::NoMemory(error)) => ExecFail::NoMemory(error),
    }
}

/// A fault of the reading of a script, with its line.
#[derive(Drop)]
struct Refusal {
    line: u32,
    fault: Fault,
}

/// A fault that tells a number and no name, on its line.
fn refusal_at(alloc: Global, line: u32, code: Code, n: u64) -> Result<Refusal, AllocError>
    ensures { IfOk result (λ x. x ≡ record { line = line; fault = number_fault code n }) }
{
    let what = Text::make(alloc, "")?;
    let fault = Fault {
        code,
        what,
        n,
        m: 0,
    };
    Ok(Refusal { line, fault })
}

/// How the fault of the reading is told.
fn refusal_of(alloc: Global, fail: ParseFail) -> Result<Refusal, AllocError>
    ensures told { IfOk result (IsRefusalOf fail) }
    ensures own { IfOk result (λ x. is_of_file x.fault.code ≡ false) }
{
    match fail {
        ParseFail::NotUtf8 => refusal_at(alloc, 0, Code::E18, 0),
        ParseFail::Syntax { line, byte } => refusal_at(alloc, line, Code::E01, byte as u64),
        ParseFail::Number { line } => refusal_at(alloc, line, Code::E22, 0),
        ParseFail::TooDeep { line } => refusal_at(alloc, line, Code::E21, 0),
        ParseFail::NoMemory(error) => Err(error),
    }
}

/// Puts the line of the fault for which the reading of a script was refused.
///
/// The answer tells why the script ended: the fault and its line, once that line is put, and no
/// statement done. E18 has line 0; E01, E21 and E22 have their own. Where memory is wanting before
/// the line is made, the line is 0 and nothing is put.
///
/// dtq's own rule, docs/LANGUAGE.md, section Faults and warnings.
#[tactic(auto, using(crate::proofs::Refusals::told_end))]
pub fn tell_refusal<E: Sink>(alloc: Global, fail: ParseFail, err: &mut E) -> RunFail
    ensures end { RefusalEnd fail (E.bytes err.old) (E.bytes err.new) result }
    ensures own { IsOwn result.cause }
    ensures read { result.cause ≢ ExecFail.ReadFault }
    ensures write { result.cause ≡ ExecFail.WriteFault →
        Rose (E.faults err.old) (E.faults err.new) }
    ensures quiet { CountsOwn ⊤ (E.faults err.new ≡ E.faults err.old) result.cause }
    ensures faults { E.faults err.old ≤ E.faults err.new }
{
    match refusal_of(alloc, fail) {
        Ok(Refusal { line, fault }) => RunFail {
            line,
            done: 0,
            cause: stopped(alloc, line, fault, err),
        },
        Err(error) => RunFail {
            line: 0,
            done: 0,
            cause: ExecFail::NoMemory(error),
        },
    }
}
