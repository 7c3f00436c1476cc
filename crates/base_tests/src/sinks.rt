use std::alloc::Global;
use std::test::Fail;
use vf_io::{Failed, MemSink, Sink, SureSink};

/// A put, its answer, and what is written after it.
#[derive(Clone, Copy)]
struct Put {
    about: &'static str,
    piece: &'static str,
    due: Result<(), Failed>,
    written: &'static str,
}

/// Each put in order.
const PUTS: [Put; 5] = [
    Put {
        about: "put 0",
        piece: "abc",
        due: Ok(()),
        written: "abc",
    },
    Put {
        about: "put 1 fails by its number",
        piece: "d",
        due: Err(Failed),
        written: "abc",
    },
    Put {
        about: "past the room",
        piece: "def",
        due: Err(Failed),
        written: "abc",
    },
    Put {
        about: "as long as the room",
        piece: "de",
        due: Ok(()),
        written: "abcde",
    },
    Put {
        about: "no room is left",
        piece: "f",
        due: Err(Failed),
        written: "abcde",
    },
];

/// Whether the put is answered as expected, and writes what is expected.
fn is_put(sink: &mut MemSink, put: &Put) -> bool {
    sink.put(put.piece.as_bytes()) == put.due && sink.written() == put.written.as_bytes()
}

/// What is said of the first of them that fails, on a sink with room for five bytes whose put 1 fails.
fn first_wrong_put(alloc: Global) -> Result<&'static str, Fail> {
    let mut sink = MemSink::new(alloc, 5, [1].to_vec(alloc)?)?;
    if !sink.written().is_empty() {
        return Ok("nothing at first");
    }
    for put in &PUTS {
        if !is_put(&mut sink, put) {
            return Ok(put.about);
        }
    }
    Ok("")
}

/// Whether a sink is found with all of memory for its room.
fn has_all_memory(alloc: Global) -> bool {
    MemSink::new(alloc, usize::MAX, Vec::new(alloc)).is_ok()
}

/// Whether a sure sink takes a line, one byte, and a long piece.
fn takes_any_put(alloc: Global) -> Result<bool, Fail> {
    let mut sink = SureSink::new();
    let long = vec![in alloc; 7u8; 100_000]?;
    Ok(sink.put(b"FINI\n").is_ok() && sink.put(b"\0").is_ok() && sink.put(&long).is_ok())
}

#[test]
fn sinks_in_memory(rt: HostRuntime) -> Result<(), Fail> {
    assert_eq!(rt; first_wrong_put(rt.alloc())?, "");
    assert!(rt; !has_all_memory(rt.alloc()), "all of memory");
    assert!(rt; takes_any_put(rt.alloc())?, "a sure sink");
    Ok(())
}
