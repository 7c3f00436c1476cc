use crate::key::KeyName;

/// Why a setup is refused. The names are those that are printed.
#[derive(Clone, Copy)]
pub enum SetupFault {
    /// The text is no TOML.
    SetupSyntax,
    /// The key is missing, its value is of another kind or of another length, or the table holds a key that isn't known.
    SetupKey(KeyName),
    /// The number, or the number of items, is out of the key's range.
    SetupRange(KeyName, i64),
}

/// How a read ends that gives no setup.
#[derive(Clone, Copy)]
pub enum SetupEnd {
    Refused(SetupFault),
    NoMemory,
}
