ghost use Rattle.std.specs.Prelude.{◌≡◌, ◌<◌, ◌≤◌, ◌↔◌, ◌+◌, List, ℕ, None, true, false, length, is_some, IfOk, IfSome, OnOk, OnErr};
ghost use Rattle.vf_io.specs.Causes.{HasCause, one_more_failure};
ghost use Rattle.vf_io.specs.Files.{bytes_of};
ghost use Rattle.vf_io.specs.Reading.{TakesBytes, CountsRead};

use std::alloc::Global;
use vf_io::{Failed, ReadEnd, Shelf, read_all};

const PART: &str = "CUTTER/2,0\nFINI\n";

/// A file that gives one byte at a time, and counts the reads that gave one.
#[derive(Drop)]
struct SlowShelf {
    place: Option<usize>,
    reads: u64,
}

impl Shelf for SlowShelf {
    ghost files = { λ _. None };

    ghost is_open = { λ s. is_some s.place };

    ghost rest = { λ _. None };

    ghost faults = { λ _. 0 };

    ghost reads = { λ s. s.reads };

    ghost allows = { λ _ _. Unit {0} };

    fn open(&mut self, _name: &str) -> Result<(), Failed> {
        self.place = Some(0);
        Ok(())
    }

    fn next(&mut self, buffer: &mut [u8]) -> Result<usize, Failed> {
        let Some(place) = self.place else {
            return Ok(0);
        };
        let Some(byte) = PART.as_bytes().get(place) else {
            return Ok(0);
        };
        buffer[0] = *byte;
        self.place = Some(place + 1);
        self.reads = self.reads.saturating_add(1);
        Ok(1)
    }
}

/// The limit, the end, where the bytes aren't read, and the reads that took a byte.
const STEPS: [(u32, Option<ReadEnd>, u64); 5] = [
    (17, None, 16),
    (16, None, 16),
    (15, Some(ReadEnd::TooLong), 16),
    (5, Some(ReadEnd::TooLong), 6),
    (0, Some(ReadEnd::TooLong), 1),
];

/// Whether the file is read so, up to a limit.
fn is_read(alloc: Global, limit: u32, end: Option<ReadEnd>, reads: u64) -> bool {
    let mut shelf = SlowShelf {
        place: None,
        reads: 0,
    };
    let got = read_all(alloc, &mut shelf, "part", limit);
    let is_due = match got {
        Ok(read) => end.is_none() && read.as_slice() == PART.as_bytes(),
        Err(other) => end == Some(other),
    };
    is_due && shelf.reads == reads
}

#[test]
fn reads_byte_after_byte_up_to_the_limit(rt: HostRuntime) {
    for (limit, end, reads) in &STEPS {
        assert!(rt; is_read(rt.alloc(), *limit, *end, *reads), "up to {limit}");
    }
}
