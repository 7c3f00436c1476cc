ghost use Rattle.std.specs.Prelude.{◌≡◌};
ghost use Rattle.std.specs.Process.{exit_status};
ghost use Rattle.clverify.specs.Codes.{code_of};

use input_faults::Fault;
use std::process::ExitCode;

/// How a call of the program ended.
#[derive(Clone, Copy)]
pub enum Status {
    /// All was done, and nothing was found.
    Clean,
    /// All was done, and something was found: some move isn't safe, there is no certificate for a move, or one isn't accepted.
    Findings,
    /// The words are no command.
    Usage,
    /// An input is refused.
    Refused(Fault),
    /// A file could not be read.
    ReadFault,
    /// Standard output took no more.
    WriteFault,
    /// No memory was found.
    NoMemory,
}

impl Status {
    /// The exit code.
    pub fn code(self) -> u8
        ensures { result ≡ code_of self }
    {
        match self {
            Status::Clean => 0,
            Status::Findings => 1,
            Status::Usage => 2,
            Status::Refused(_) => 3,
            Status::ReadFault => 4,
            Status::WriteFault => 5,
            Status::NoMemory => 6,
        }
    }
}

impl From<Status> for ExitCode {
    ghost from_gives = { λ status e. exit_status e ≡ code_of status };

    fn from(status: Status) -> ExitCode {
        ExitCode::from(status.code())
    }
}
