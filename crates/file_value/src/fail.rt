ghost use Rattle.vector_model.specs.Faults.{unbuilt};
ghost use Rattle.std.specs.Prelude.{◌≡◌};
ghost use Rattle.file_value.specs.Answers.{IsStop};
ghost use Rattle.file_value.specs.Reads.{unread};
ghost use Rattle.dt_base.specs.Fault.{fault};

use dt_base::{Code, Fault};
use eval_fail::{EvalFail, stop_unbuilt};
use std::alloc::{AllocError, Global};

/// Why an expression has no value: its first fault, a read that failed, or want of memory.
#[derive(Drop)]
pub enum ValueFail {
    Stop(Fault),
    ReadFault,
    NoMemory(AllocError),
}

impl From<EvalFail> for ValueFail {
    ghost use Rattle.std.specs.Prelude.{◌≡◌};
    ghost use Rattle.file_value.specs.Fails.{widened};

    ghost from_gives = { λ e f. f ≡ widened e };

    fn from(e: EvalFail) -> ValueFail {
        match e {
            EvalFail::Stop(fault) => ValueFail::Stop(fault),
            EvalFail::NoMemory(error) => ValueFail::NoMemory(error),
        }
    }
}

impl From<AllocError> for ValueFail {
    ghost use Rattle.std.specs.Prelude.{◌≡◌};
    ghost use Rattle.file_value.specs.declared.fail.ValueFail.TheVariants.{NoMemory};

    ghost from_gives = { λ e f. f ≡ NoMemory e };

    fn from(e: AllocError) -> ValueFail {
        ValueFail::NoMemory(e)
    }
}

/// The answer of a call that reads no file, as that of a call that may read some.
pub fn unread<T: Drop>(answer: Result<T, EvalFail>) -> Result<T, ValueFail>
    ensures { result ≡ unread answer }
{
    match answer {
        Ok(given) => Ok(given),
        Err(EvalFail::Stop(fault)) => Err(ValueFail::Stop(fault)),
        Err(EvalFail::NoMemory(error)) => Err(ValueFail::NoMemory(error)),
    }
}

/// The fault of this code that tells a name and no numbers, or want of memory for its text.
pub fn refusal(alloc: Global, code: Code, what: &str) -> ValueFail
    ensures { IsStop (fault code what.now) result }
{
    match Fault::of(alloc, code, what) {
        Ok(fault) => ValueFail::Stop(fault),
        Err(error) => ValueFail::NoMemory(error),
    }
}

/// The fault of a form of the language that nothing serves yet, or want of memory for its text.
pub fn refusal_unbuilt(alloc: Global) -> ValueFail
    ensures { IsStop unbuilt result }
{
    match stop_unbuilt(alloc) {
        EvalFail::Stop(fault) => ValueFail::Stop(fault),
        EvalFail::NoMemory(error) => ValueFail::NoMemory(error),
    }
}
