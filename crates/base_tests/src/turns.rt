ghost use Rattle.std.specs.Prelude.{IsTrue};
ghost use Rattle.space.specs.Ranges.{IsWithin};

use ray_grid::Turn;
use std::test::Fail;

/// A turn, a point, and where it lies when it is turned.
#[derive(Clone, Copy)]
struct Row {
    what: &'static str,
    turn: Turn,
    point: [i32; 3],
    there: [i32; 3],
}

// New coordinate n is old coordinate axis[n], negated or not, plus shift[n].
const ROWS: [Row; 11] = [
    Row {
        what: "as it lies",
        turn: Turn {
            axis: [0, 1, 2],
            neg: [false, false, false],
            shift: [0, 0, 0],
        },
        point: [1, 2, 3],
        there: [1, 2, 3],
    },
    Row {
        what: "moved alone",
        turn: Turn {
            axis: [0, 1, 2],
            neg: [false, false, false],
            shift: [10, -20, 2_000_000],
        },
        point: [-1_000_000, 1_000_000, 500],
        there: [-999_990, 999_980, 2_000_500],
    },
    Row {
        what: "a quarter about z",
        turn: Turn {
            axis: [1, 0, 2],
            neg: [true, false, false],
            shift: [0, 0, 0],
        },
        point: [100, 200, 300],
        there: [-200, 100, 300],
    },
    Row {
        what: "a quarter about x, moved",
        turn: Turn {
            axis: [0, 2, 1],
            neg: [false, true, false],
            shift: [5, 6, 7],
        },
        point: [100, 200, 300],
        there: [105, -294, 207],
    },
    Row {
        what: "a quarter about y the other way",
        turn: Turn {
            axis: [2, 1, 0],
            neg: [true, false, false],
            shift: [0, 0, -50],
        },
        point: [100, 200, 300],
        there: [-300, 200, 50],
    },
    Row {
        what: "half about x",
        turn: Turn {
            axis: [0, 1, 2],
            neg: [false, true, true],
            shift: [0, 0, 30_000],
        },
        point: [100, 200, 300],
        there: [100, -200, 29_700],
    },
    Row {
        what: "each axis to the next one",
        turn: Turn {
            axis: [1, 2, 0],
            neg: [false, false, false],
            shift: [1, 2, 3],
        },
        point: [100, 200, 300],
        there: [201, 302, 103],
    },
    Row {
        what: "each axis to the one before it",
        turn: Turn {
            axis: [2, 0, 1],
            neg: [false, false, false],
            shift: [1, 2, 3],
        },
        point: [100, 200, 300],
        there: [301, 102, 203],
    },
    Row {
        what: "to the next one, two of them negated",
        turn: Turn {
            axis: [1, 2, 0],
            neg: [true, false, true],
            shift: [1_000, 2_000, 3_000],
        },
        point: [-7, 11, -13],
        there: [989, 1_987, 3_007],
    },
    Row {
        what: "two exchanged, all negated",
        turn: Turn {
            axis: [1, 0, 2],
            neg: [true, true, true],
            shift: [0, 0, 0],
        },
        point: [100, 200, 300],
        there: [-200, -100, -300],
    },
    Row {
        what: "the farthest corner",
        turn: Turn {
            axis: [2, 0, 1],
            neg: [true, true, false],
            shift: [-2_000_000, -2_000_000, -2_000_000],
        },
        point: [1_000_000, -1_000_000, 1_000_000],
        there: [-3_000_000, -3_000_000, -3_000_000],
    },
];

/// Whether no number is further from 0 than the limit.
fn is_within(numbers: &[i32; 3], limit: u32) -> bool
    ensures { IsTrue result → IsWithin limit numbers.now }
{
    numbers[0].unsigned_abs() <= limit
        && numbers[1].unsigned_abs() <= limit
        && numbers[2].unsigned_abs() <= limit
}

/// Whether the row's turn is one, takes its point there, and back.
fn is_row(row: &Row) -> bool {
    let turn = row.turn;
    if !turn.is_turn() || !is_within(&turn.shift, 2_000_000) {
        return false;
    }
    if !is_within(&row.point, 1_000_000) || !is_within(&row.there, 3_000_000) {
        return false;
    }
    turn.forth(row.point) == row.there && turn.back(row.there) == row.point
}

#[test]
fn turns_forth_and_back(rt: HostRuntime) -> Result<(), Fail> {
    for row in &ROWS {
        assert!(rt; is_row(row), "{}", row.what);
    }
    Ok(())
}
