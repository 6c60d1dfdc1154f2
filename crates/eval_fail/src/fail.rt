ghost use Rattle.dt_base.specs.Fault.{fault};
ghost use Rattle.vector_model.specs.Faults.{length_fault, unbuilt, number_fault};
ghost use Rattle.std.specs.Prelude.{◌≡◌, false};
ghost use Rattle.eval_fail.specs.Answers.{IsStop, is_of_file, IsOwn};

use dt_base::{Code, Fault, Text};
use std::alloc::{AllocError, Global};

/// Why an expression or a statement has no value: its first fault, or want of memory.
#[derive(Drop)]
pub enum EvalFail {
    Stop(Fault),
    NoMemory(AllocError),
}

impl From<AllocError> for EvalFail {
    ghost use Rattle.std.specs.Prelude.{◌≡◌};
    ghost use Rattle.eval_fail.specs.declared.fail.EvalFail.TheVariants.{NoMemory};

    ghost from_gives = { λ e f. f ≡ NoMemory e };

    fn from(e: AllocError) -> EvalFail {
        EvalFail::NoMemory(e)
    }
}

/// The fault of this code that tells a name and no numbers, or want of memory for its text.
pub fn stop(alloc: Global, code: Code, what: &str) -> EvalFail
    ensures fault { IsStop (fault code what.now) result }
    ensures own { is_of_file code ≡ false → IsOwn result }
{
    match Fault::of(alloc, code, what) {
        Ok(fault) => EvalFail::Stop(fault),
        Err(error) => EvalFail::NoMemory(error),
    }
}

/// The fault of this code that tells a number and no name, or want of memory.
pub fn stop_number(alloc: Global, code: Code, n: u64) -> EvalFail
    ensures fault { IsStop (number_fault code n) result }
    ensures own { is_of_file code ≡ false → IsOwn result }
{
    match Text::make(alloc, "") {
        Ok(what) => EvalFail::Stop(Fault {
            code,
            what,
            n,
            m: 0,
        }),
        Err(error) => EvalFail::NoMemory(error),
    }
}

/// The fault of a length n where m is wanted, or want of memory.
pub fn stop_length(alloc: Global, n: usize, m: usize) -> EvalFail
    ensures fault { IsStop (length_fault n m) result }
    ensures own { IsOwn result }
{
    match Text::make(alloc, "") {
        Ok(what) => EvalFail::Stop(Fault {
            code: Code::E05,
            what,
            n: n as u64,
            m: m as u64,
        }),
        Err(error) => EvalFail::NoMemory(error),
    }
}

/// The fault of a form of the language that nothing serves yet, or want of memory for its text.
pub fn stop_unbuilt(alloc: Global) -> EvalFail
    ensures fault { IsStop unbuilt result }
    ensures own { IsOwn result }
{
    stop(alloc, Code::E19, "unbuilt")
}
