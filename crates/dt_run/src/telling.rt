//! What is told on `err`, a line at a time.
ghost use Rattle.std.specs.Prelude.{◌≡◌, ⊤};
ghost use Rattle.dt_world.specs.Causes.{Rose};
ghost use Rattle.run_model.specs.Messages.{printed_fault};
ghost use Rattle.dt_run.specs.Run.{usage_line};
ghost use Rattle.dt_run.specs.Steps.{CountsOwn, PutAs, absent, too_long};

use crate::status::Status;
use dt_base::limits::MAX_SCRIPT_BYTES;
use dt_base::{Code, Fault, Text};
use dt_print::fault_line;
use dt_world::{Sink, WriteFail};
use std::alloc::Global;

/// Puts the line of a fault.
pub fn tell<E: Sink>(alloc: Global, line: u32, fault: &Fault, err: &mut E) -> Status
    ensures put { PutAs Status.Stopped (E.bytes err.old) (E.bytes err.new)
        (printed_fault line fault.now)
        (Rose (E.faults err.old) (E.faults err.new)) result }
    ensures quiet { CountsOwn ⊤ (E.faults err.new ≡ E.faults err.old) result }
{
    let Ok(text) = fault_line(alloc, line, fault) else {
        return Status::NoMemory;
    };
    match err.put(&text) {
        Ok(()) => Status::Stopped,
        Err(WriteFail::Failed) => Status::WriteFault,
        Err(WriteFail::NoMemory(_)) => Status::NoMemory,
    }
}

/// Puts how the program is called.
pub fn tell_usage<E: Sink>(err: &mut E) -> Status
    ensures put { PutAs Status.Usage (E.bytes err.old) (E.bytes err.new) usage_line
        (Rose (E.faults err.old) (E.faults err.new)) result }
    ensures quiet { CountsOwn ⊤ (E.faults err.new ≡ E.faults err.old) result }
{
    match err.put(b"usage: dtq [--check] SCRIPT | dtq --gen N\n") {
        Ok(()) => Status::Usage,
        Err(WriteFail::Failed) => Status::WriteFault,
        Err(WriteFail::NoMemory(_)) => Status::NoMemory,
    }
}

/// Tells that there is no script of this name.
pub fn tell_absent<E: Sink>(alloc: Global, name: &str, err: &mut E) -> Status
    ensures put { PutAs Status.Stopped (E.bytes err.old) (E.bytes err.new)
        (printed_fault 0 (absent name.now))
        (Rose (E.faults err.old) (E.faults err.new)) result }
    ensures quiet { CountsOwn ⊤ (E.faults err.new ≡ E.faults err.old) result }
{
    match Fault::of(alloc, Code::E15, name) {
        Ok(fault) => tell(alloc, 0, &fault, err),
        Err(_) => Status::NoMemory,
    }
}

/// Tells that the script of this name is too long.
pub fn tell_too_long<E: Sink>(alloc: Global, name: &str, err: &mut E) -> Status
    ensures put { PutAs Status.Stopped (E.bytes err.old) (E.bytes err.new)
        (printed_fault 0 (too_long name.now))
        (Rose (E.faults err.old) (E.faults err.new)) result }
    ensures quiet { CountsOwn ⊤ (E.faults err.new ≡ E.faults err.old) result }
{
    match Text::make(alloc, name) {
        Ok(what) => tell(
            alloc,
            0,
            &Fault {
                code: Code::E16,
                what,
                n: MAX_SCRIPT_BYTES,
                m: 0,
            },
            err,
        ),
        Err(_) => Status::NoMemory,
    }
}
