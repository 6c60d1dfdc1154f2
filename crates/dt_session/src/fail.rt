use dt_base::Fault;
use dt_world::WriteFail;
use std::alloc::AllocError;
use stmt_value::ValueFail;

/// Why a statement was refused.
#[derive(Drop)]
pub enum ExecFail {
    /// Its first fault.
    Stop(Fault),
    /// A file was not read.
    ReadFault,
    /// A file was not written, or a text not put.
    WriteFault,
    NoMemory(AllocError),
}

impl From<ValueFail> for ExecFail {
    ghost use Rattle.std.specs.Prelude.{◌≡◌};
    ghost use Rattle.dt_session.specs.Fails.{of_value};

    ghost from_gives = { λ e f. f ≡ of_value e };

    fn from(e: ValueFail) -> ExecFail {
        match e {
            ValueFail::Stop(fault) => ExecFail::Stop(fault),
            ValueFail::ReadFault => ExecFail::ReadFault,
            ValueFail::NoMemory(error) => ExecFail::NoMemory(error),
        }
    }
}

impl From<WriteFail> for ExecFail {
    ghost use Rattle.std.specs.Prelude.{◌≡◌};
    ghost use Rattle.dt_session.specs.Fails.{of_write};

    ghost from_gives = { λ e f. f ≡ of_write e };

    fn from(e: WriteFail) -> ExecFail {
        match e {
            WriteFail::Failed => ExecFail::WriteFault,
            WriteFail::NoMemory(error) => ExecFail::NoMemory(error),
        }
    }
}

impl From<AllocError> for ExecFail {
    ghost use Rattle.std.specs.Prelude.{◌≡◌};
    ghost use Rattle.dt_session.specs.declared.fail.ExecFail.TheVariants.{NoMemory};

    ghost from_gives = { λ e f. f ≡ NoMemory e };

    fn from(e: AllocError) -> ExecFail {
        ExecFail::NoMemory(e)
    }
}

/// Why a script ended early: the line of the statement that was refused, how many statements were
/// done before it, and why it was refused. Where the script itself was refused, no statement was
/// done, and the line is that of the fault, or 0.
#[derive(Drop)]
pub struct RunFail {
    pub line: u32,
    pub done: u64,
    pub cause: ExecFail,
}
