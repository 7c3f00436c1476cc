use crate::fault::Fault;

/// What stops a command before it has a report.
#[derive(Clone, Copy)]
pub enum Stopped {
    /// An input is refused.
    Refused(Fault),
    /// A file could not be read.
    ReadFault,
    /// No memory was found.
    NoMemory,
}
