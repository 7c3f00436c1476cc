use crate::dexels::{is_marked, set_of};
use std::alloc::Global;
use std::test::Fail;
use vf_io::NoMemory;
use vf_spans::Spans;

/// The bits of a set, and how many ranges it has.
#[derive(Clone, Copy)]
pub(crate) struct Shown {
    pub(crate) bits: u8,
    pub(crate) ranges: u32,
}

/// Whether the set has these bits and this number of ranges.
pub(crate) fn shows(set: &Spans, shown: Shown) -> bool {
    for i in 0..9 {
        if set.has(i) != is_marked(shown.bits, i) {
            return false;
        }
    }
    set.ranges() == shown.ranges
        && set.count() == shown.bits.count_ones()
        && set.is_empty() == (shown.bits == 0)
}

/// Whether the set shows that, a copy of it too, and both are the same as the set that was pushed.
fn is_made(alloc: Global, set: &Spans, shown: Shown) -> Result<bool, NoMemory> {
    let copy = set.copy()?;
    let pushed = set_of(alloc, shown.bits)?;
    Ok(
        shows(set, shown)
            && shows(&copy, shown)
            && shows(&pushed, shown)
            && set.is_same(&copy)
            && set.is_same(&pushed),
    )
}

/// Whether the result of an operation on two sets shows that.
fn shows_made(
    alloc: Global,
    made: Result<Spans, NoMemory>,
    shown: Shown,
) -> Result<bool, NoMemory> {
    is_made(alloc, &made?, shown)
}

/// Two sets, and the results of the operations on them.
#[derive(Clone, Copy)]
struct Row {
    what: &'static str,
    first: u8,
    second: u8,
    union: Shown,
    minus: Shown,
    meet: Shown,
}

const ROWS: [Row; 8] = [
    Row {
        what: "no range and none",
        first: 0,
        second: 0,
        union: Shown { bits: 0, ranges: 0 },
        minus: Shown { bits: 0, ranges: 0 },
        meet: Shown { bits: 0, ranges: 0 },
    },
    Row {
        what: "one range and none",
        first: 0b0001_1100,
        second: 0,
        union: Shown {
            bits: 0b0001_1100,
            ranges: 1,
        },
        minus: Shown {
            bits: 0b0001_1100,
            ranges: 1,
        },
        meet: Shown { bits: 0, ranges: 0 },
    },
    Row {
        what: "one range and one apart from it",
        first: 0b0000_0011,
        second: 0b1100_0000,
        union: Shown {
            bits: 0b1100_0011,
            ranges: 2,
        },
        minus: Shown {
            bits: 0b0000_0011,
            ranges: 1,
        },
        meet: Shown { bits: 0, ranges: 0 },
    },
    Row {
        what: "one range and one adjacent to it",
        first: 0b0000_0011,
        second: 0b0011_1100,
        union: Shown {
            bits: 0b0011_1111,
            ranges: 1,
        },
        minus: Shown {
            bits: 0b0000_0011,
            ranges: 1,
        },
        meet: Shown { bits: 0, ranges: 0 },
    },
    Row {
        what: "one range and one within it",
        first: 0b0111_1110,
        second: 0b0001_1000,
        union: Shown {
            bits: 0b0111_1110,
            ranges: 1,
        },
        minus: Shown {
            bits: 0b0110_0110,
            ranges: 2,
        },
        meet: Shown {
            bits: 0b0001_1000,
            ranges: 1,
        },
    },
    // Of 0, 1, 2 and 2, 3, 4: all five; 0 and 1; 2.
    Row {
        what: "one range and one that it overlaps",
        first: 0b0000_0111,
        second: 0b0001_1100,
        union: Shown {
            bits: 0b0001_1111,
            ranges: 1,
        },
        minus: Shown {
            bits: 0b0000_0011,
            ranges: 1,
        },
        meet: Shown {
            bits: 0b0000_0100,
            ranges: 1,
        },
    },
    Row {
        what: "two ranges and one that fills the gap",
        first: 0b0110_0110,
        second: 0b0001_1100,
        union: Shown {
            bits: 0b0111_1110,
            ranges: 1,
        },
        minus: Shown {
            bits: 0b0110_0010,
            ranges: 2,
        },
        meet: Shown {
            bits: 0b0000_0100,
            ranges: 1,
        },
    },
    Row {
        what: "two ranges and two",
        first: 0b0110_0110,
        second: 0b1010_0011,
        union: Shown {
            bits: 0b1110_0111,
            ranges: 2,
        },
        minus: Shown {
            bits: 0b0100_0100,
            ranges: 2,
        },
        meet: Shown {
            bits: 0b0010_0010,
            ranges: 2,
        },
    },
];

/// Whether each operation makes of the row's sets what the row says.
fn is_row(alloc: Global, row: &Row) -> Result<bool, NoMemory> {
    let first = set_of(alloc, row.first)?;
    let second = set_of(alloc, row.second)?;
    Ok(
        shows_made(alloc, first.union(&second), row.union)?
            && shows_made(alloc, first.minus(&second), row.minus)?
            && shows_made(alloc, first.meet(&second), row.meet)?,
    )
}

#[test]
fn sets_of_few_ranges(rt: HostRuntime) -> Result<(), Fail> {
    for row in &ROWS {
        assert!(rt; is_row(rt.alloc(), row)?, "{}", row.what);
    }
    Ok(())
}
