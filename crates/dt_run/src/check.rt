//! A script that is only read: nothing is told of it, or its first fault is.
ghost use Rattle.std.specs.Prelude.{◌≡◌, ◌≤◌, length, ⊤};
ghost use Rattle.dt_world.specs.Causes.{Rose};
ghost use Rattle.dt_run.specs.Steps.{CheckedAs, CountsOwn};

use crate::status::{Status, status_for};
use dt_base::limits::MAX_SCRIPT_BYTES;
use dt_script::parse;
use dt_session::tell_refusal;
use dt_world::Sink;
use std::alloc::Global;

/// Reads the script of these bytes and does nothing more.
pub fn check_script<E: Sink>(alloc: Global, bytes: &[u8], err: &mut E) -> Status
    requires { length bytes.now ≤ MAX_SCRIPT_BYTES }
    ensures end { CheckedAs bytes.now (E.bytes err.old) (E.bytes err.new)
        (Rose (E.faults err.old) (E.faults err.new)) result }
    ensures quiet { CountsOwn ⊤ (E.faults err.new ≡ E.faults err.old) result }
{
    match parse(alloc, bytes) {
        Ok(_script) => Status::Done,
        Err(fail) => {
            let ended = tell_refusal(alloc, fail, err);
            status_for(&ended.cause)
        }
    }
}
