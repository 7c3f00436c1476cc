use input_faults::{Fault, Input};
use vf_io::{NoMemory, ReadEnd};

/// How a run ends that writes nothing of what was read.
#[derive(Clone, Copy)]
pub(crate) enum Ending {
    /// The words ask for nothing.
    Usage,
    /// A file is refused.
    Refused(Fault),
    /// A file could not be read.
    ReadFault,
    NoMemory,
}

impl Ending {
    /// The exit code where standard output takes no more.
    pub(crate) const WRITE_FAULT: u8 = 5;

    /// The exit code, as `clverify` has it.
    pub(crate) fn code(&self) -> u8 {
        match self {
            Ending::Usage => 2,
            Ending::Refused(_) => 3,
            Ending::ReadFault => 4,
            Ending::NoMemory => 6,
        }
    }

    /// The ending where a file gave no bytes.
    pub(crate) fn of_read(end: ReadEnd, input: Input) -> Ending {
        match end {
            ReadEnd::Failed => Ending::ReadFault,
            ReadEnd::TooLong => Ending::Refused(Fault::TooLong(input)),
            ReadEnd::NoMemory => Ending::NoMemory,
        }
    }
}

impl From<NoMemory> for Ending {
    fn from(_: NoMemory) -> Ending {
        Ending::NoMemory
    }
}
