ghost use Rattle.std.specs.Prelude.{◌≡◌};
ghost use Rattle.dt_run.specs.Steps.{status_for};

use dt_session::ExecFail;

/// How a run ended.
#[derive(Clone, Copy)]
pub enum Status {
    /// The script ran to its end.
    Done,
    /// A fault stopped it; its line stands on `err`.
    Stopped,
    /// The words are not one script's name; the usage stands on `err`.
    Usage,
    /// A file could not be read.
    ReadFault,
    /// `out` or `err` could not be written.
    WriteFault,
    /// Memory ran out.
    NoMemory,
}

impl Status {
    ghost use Rattle.dt_run.specs.Exit.{exit_number};

    /// The number that the program ends with.
    ///
    /// dtq's own rule, docs/LANGUAGE.md, section What runs today.
    pub fn number(self) -> u8
        ensures { result ≡ exit_number self }
    {
        match self {
            Status::Done => 0,
            Status::Stopped => 1,
            Status::Usage => 2,
            Status::ReadFault => 3,
            Status::WriteFault => 4,
            Status::NoMemory => 5,
        }
    }
}

/// The status of a run that ended early.
pub fn status_for(cause: &ExecFail) -> Status
    ensures { result ≡ status_for cause.now }
{
    match cause {
        ExecFail::Stop(_) => Status::Stopped,
        ExecFail::ReadFault => Status::ReadFault,
        ExecFail::WriteFault => Status::WriteFault,
        ExecFail::NoMemory(_) => Status::NoMemory,
    }
}
