use crate::calls::{Call, gives, owned_files};
use std::alloc::Global;
use std::test::Fail;
use vf_io::{CutShelf, Failed, Shelf};

/// What the reads of a file of seven bytes give, by pieces of a length, and where a call fails.
#[derive(Clone, Copy)]
struct Reads {
    about: &'static str,
    piece: u32,
    failing: u64,
    due: [Result<&'static str, Failed>; 5],
}

const READS: [Reads; 6] = [
    Reads {
        about: "pieces of 1",
        piece: 1,
        failing: 99,
        due: [Ok("G"), Ok("O"), Ok("T"), Ok("O"), Ok("/")],
    },
    Reads {
        about: "pieces of 2",
        piece: 2,
        failing: 99,
        due: [Ok("GO"), Ok("TO"), Ok("/1"), Ok(","), Ok("")],
    },
    Reads {
        about: "pieces of 7",
        piece: 7,
        failing: 99,
        due: [Ok("GOTO"), Ok("/1,"), Ok(""), Ok(""), Ok("")],
    },
    Reads {
        about: "pieces of 2, call 1 fails",
        piece: 2,
        failing: 1,
        due: [Err(Failed), Ok(""), Ok(""), Ok(""), Ok("")],
    },
    Reads {
        about: "pieces of 2, call 3 fails",
        piece: 2,
        failing: 3,
        due: [Ok("GO"), Ok("TO"), Err(Failed), Ok(""), Ok("")],
    },
    Reads {
        about: "pieces of u32::MAX, call 5 fails",
        piece: u32::MAX,
        failing: 5,
        due: [Ok("GOTO"), Ok("/1,"), Ok(""), Ok(""), Err(Failed)],
    },
];

/// A shelf of one file that is read in pieces, and of whose calls one fails.
fn shelf_of(alloc: Global, failing: u64, piece: u32) -> Result<CutShelf, Fail> {
    let files = owned_files(alloc, &[("part", b"GOTO/1,")])?;
    Ok(CutShelf::new(files, [failing].to_vec(alloc)?, piece.max(1)))
}

/// Whether the file can be opened, and gives what is expected.
fn are_read(alloc: Global, reads: &Reads) -> Result<bool, Fail> {
    let mut shelf = shelf_of(alloc, reads.failing, reads.piece)?;
    let mut are_due = shelf.open("part").is_ok();
    for due in &reads.due {
        let read = Call {
            about: "a read",
            name: None,
            due: *due,
        };
        are_due = gives(&mut shelf, &read) && are_due;
    }
    Ok(are_due)
}

/// Whether a file can be opened that isn't there.
fn has_absent(alloc: Global) -> Result<bool, Fail> {
    let mut shelf = shelf_of(alloc, 9, 2)?;
    Ok(shelf.open("absent").is_ok())
}

#[test]
fn reads_no_more_than_a_piece(rt: HostRuntime) -> Result<(), Fail> {
    for reads in &READS {
        assert!(rt; are_read(rt.alloc(), reads)?, "{}", reads.about);
    }
    assert!(rt; !has_absent(rt.alloc())?, "an absent name");
    Ok(())
}
