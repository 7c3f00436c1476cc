ghost use Rattle.std.specs.Prelude.{ℕ, List};

use std::alloc::Global;
use std::test::Fail;
use vf_io::{Failed, Shelf};

/// A call of a shelf: the name that is opened, or none for a read, and the expected bytes.
#[derive(Clone, Copy)]
pub(crate) struct Call {
    pub about: &'static str,
    pub name: Option<&'static str>,
    pub due: Result<&'static str, Failed>,
}

/// The first of a name, another of that name, and one more.
pub(crate) const FILES: [(&str, &[u8]); 3] = [
    ("part", b"FROM/0,0,1"),
    ("part", b"FINI"),
    ("last", b"FINI"),
];

/// Files as they are handed over.
pub(crate) fn owned_files(
    alloc: Global,
    files: &[(&str, &[u8])],
) -> Result<Vec<(String, Vec<u8>)>, Fail> {
    let mut owned = Vec::new(alloc);
    for (name, bytes) in files {
        owned.push((name.to_string(alloc)?, bytes.to_vec(alloc)?))?;
    }
    Ok(owned)
}

/// What is said of the first call that doesn't give what is expected, or nothing where each does.
pub(crate) fn first_wrong<S: Shelf>(shelf: &mut S, calls: &[Call]) -> &'static str
    requires { (n : List ℕ) → S.allows shelf.old n }
{
    for call in calls {
        if !gives(shelf, call) {
            return call.about;
        }
    }
    ""
}

/// Whether the call gives what is expected, no bytes where it opens.
pub(crate) fn gives<S: Shelf>(shelf: &mut S, call: &Call) -> bool
    requires { (n : List ℕ) → S.allows shelf.old n }
    ensures { (n : List ℕ) → S.allows shelf.new n }
{
    let mut buffer = [0u8; 4];
    let got = match call.name {
        Some(name) => shelf.open(name).map(|_| 0),
        None => shelf.next(&mut buffer),
    };
    match (got, call.due) {
        (Ok(count), Ok(text)) => buffer.get(..count) == Some(text.as_bytes()),
        (got, due) => got.is_err() && due.is_err(),
    }
}
