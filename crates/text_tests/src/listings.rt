use axis_cells::Mark;
use cl_moves::{CutterText, Move, Moves, Program};
use report_text::{list_text, point_text};
use std::alloc::Global;
use std::test::Fail;
use vf_io::NoMemory;

/// The height and the flank of a cutter, or none, with a mark for a move of it.
const MOVES: [(Option<(Option<i32>, u32)>, Option<Mark>); 5] = [
    (None, None),
    (Some((None, 0)), Some(Mark::Removed)),
    (Some((Some(50_000), 0)), Some(Mark::Possible)),
    (Some((Some(50_000), 3)), Some(Mark::Clear)),
    (Some((None, 89)), None),
];

const LISTING: &str = "clverify list 1
move 1 line 7 cut from 0 0 50000 to 10000 0 -20000 axis 0 0 100000 to 0 17365 98481 cutter none
move 2 line 8 rapid from 0 0 50000 to 10000 0 -20000 axis 0 0 100000 to 0 17365 98481 cutter 10000 1000 -
move 3 line 9 cut from 0 0 50000 to 10000 0 -20000 axis 0 0 100000 to 0 17365 98481 cutter 10000 1000 50000
move 4 line 10 rapid from 0 0 50000 to 10000 0 -20000 axis 0 0 100000 to 0 17365 98481 cutter 10000 1000 50000 flank 3
move 5 line 11 cut from 0 0 50000 to 10000 0 -20000 axis 0 0 100000 to 0 17365 98481 cutter 10000 1000 - flank 89
moves 5 passed 6
";

const MARKING: &str = "clverify point 1
move 1 line 7 nocutter
move 2 line 8 removed
move 3 line 9 possible
move 4 line 10 clear
move 5 line 11 nocutter
moves 5
";

/// A cutter of ten millimetres with a corner radius of one.
fn cutter_of(h: Option<i32>, flank: u32) -> CutterText {
    CutterText {
        d: 10_000,
        r: 1_000,
        h,
        flank,
    }
}

/// A program with a move of each cutter, every second one in rapid traverse, and the marks.
fn program(alloc: Global) -> Result<(Program, Vec<Option<Mark>>), NoMemory> {
    let mut moves = Moves::new(alloc);
    let mut marks = Vec::new(alloc);
    for (number, (sizes, mark)) in MOVES.iter().enumerate() {
        let cutter = match sizes {
            Some((h, flank)) => Some(cutter_of(*h, *flank)),
            None => None,
        };
        moves.push(Move {
            line: 7 + number as u32,
            rapid: number % 2 == 1,
            from: [0, 0, 50_000],
            to: [10_000, 0, -20_000],
            axis_from: [0, 0, 100_000],
            axis_to: [0, 17_365, 98_481],
            cutter,
        })?;
        marks.push(*mark)?;
    }
    Ok((Program { moves, passed: 6 }, marks))
}

/// The listing of the program.
fn listing(alloc: Global) -> Result<Vec<u8>, NoMemory> {
    let (program, _marks) = program(alloc)?;
    list_text(alloc, &program)
}

/// The text of its marks, of which there is one a move.
fn marking(alloc: Global) -> Result<Vec<u8>, NoMemory> {
    let (program, marks) = program(alloc)?;
    if marks.len() != program.moves.len() {
        return Ok(Vec::new(alloc));
    }
    point_text(alloc, &program, &marks)
}

#[test]
fn lists_and_marks_moves(rt: HostRuntime) -> Result<(), Fail> {
    assert!(rt;
        listing(rt.alloc())?.as_slice() == LISTING.as_bytes(),
        "listing"
    );
    assert!(rt;
        marking(rt.alloc())?.as_slice() == MARKING.as_bytes(),
        "marks"
    );
    Ok(())
}
