use crate::calls::{Call, FILES, first_wrong, owned_files};
use std::alloc::Global;
use std::test::Fail;
use vf_io::{Failed, MemShelf, SureShelf};

/// Each call of a shelf in memory, in order.
const IN_MEMORY: [Call; 12] = [
    Call {
        about: "no file is open at first",
        name: None,
        due: Ok(""),
    },
    Call {
        about: "call 1 opens the first of a name",
        name: Some("part"),
        due: Ok(""),
    },
    Call {
        about: "its front",
        name: None,
        due: Ok("FROM"),
    },
    Call {
        about: "its middle",
        name: None,
        due: Ok("/0,0"),
    },
    Call {
        about: "another in place of the open one",
        name: Some("last"),
        due: Ok(""),
    },
    Call {
        about: "call 5 fails by its number",
        name: None,
        due: Err(Failed),
    },
    Call {
        about: "closed by the failure",
        name: None,
        due: Ok(""),
    },
    Call {
        about: "open again",
        name: Some("last"),
        due: Ok(""),
    },
    Call {
        about: "from its first byte",
        name: None,
        due: Ok("FINI"),
    },
    Call {
        about: "at its end",
        name: None,
        due: Ok(""),
    },
    Call {
        about: "an absent name",
        name: Some("absent"),
        due: Err(Failed),
    },
    Call {
        about: "closed by the absent name",
        name: None,
        due: Ok(""),
    },
];

/// What is said of the first of them that isn't as expected, on a shelf whose call 5 fails.
fn first_wrong_in_memory(alloc: Global) -> Result<&'static str, Fail> {
    let files = owned_files(alloc, &FILES)?;
    let mut shelf = MemShelf::new(files, [5].to_vec(alloc)?);
    Ok(first_wrong(&mut shelf, &IN_MEMORY))
}

/// Each call of a sure shelf, in order.
const SURE: [Call; 11] = [
    Call {
        about: "no file is open at first",
        name: None,
        due: Ok(""),
    },
    Call {
        about: "an absent name",
        name: Some("absent"),
        due: Ok(""),
    },
    Call {
        about: "is an empty file",
        name: None,
        due: Ok(""),
    },
    Call {
        about: "the first of a name",
        name: Some("part"),
        due: Ok(""),
    },
    Call {
        about: "its front",
        name: None,
        due: Ok("FROM"),
    },
    Call {
        about: "its middle",
        name: None,
        due: Ok("/0,0"),
    },
    Call {
        about: "an absent name in place of the open one",
        name: Some("par"),
        due: Ok(""),
    },
    Call {
        about: "is empty too",
        name: None,
        due: Ok(""),
    },
    Call {
        about: "open again",
        name: Some("part"),
        due: Ok(""),
    },
    Call {
        about: "from its first byte",
        name: None,
        due: Ok("FROM"),
    },
    Call {
        about: "another",
        name: Some("last"),
        due: Ok(""),
    },
];

/// What is said of the first of them that isn't as expected.
fn first_wrong_of_sure(alloc: Global) -> Result<&'static str, Fail> {
    let mut shelf = SureShelf::new(owned_files(alloc, &FILES)?);
    Ok(first_wrong(&mut shelf, &SURE))
}

#[test]
fn shelves_in_memory(rt: HostRuntime) -> Result<(), Fail> {
    assert_eq!(rt; first_wrong_in_memory(rt.alloc())?, "");
    assert_eq!(rt; first_wrong_of_sure(rt.alloc())?, "");
    Ok(())
}
