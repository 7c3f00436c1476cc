ghost use Rattle.std.specs.Prelude.{◌≤◌, length};
ghost use Rattle.cl_lines.specs.Texts.{most_bytes};
ghost use Rattle.point_marks.specs.Questions.{IsQuestion};

use axis_cells::Mark;
use cl_moves::read_program;
use move_cutters::{CutterDefaults, low_cutter};
use point_marks::{Question, marks_of};
use std::alloc::Global;
use std::test::Fail;
use vf_io::NoMemory;

/// A move without a cutter has none, and a cutter without a height has the greatest height.
const USUAL: CutterDefaults = CutterDefaults {
    cutter: None,
    height: 300_000,
};

/// Whether the file is a program whose cutters are high enough, and its moves have these marks.
fn are_marked(
    alloc: Global,
    file: &[u8],
    question: &Question,
    due: &[Option<Mark>],
) -> Result<bool, NoMemory>
    requires file { length file.now ≤ most_bytes }
    requires question { IsQuestion question.now }
{
    let Ok(program) = read_program(alloc, file) else {
        return Ok(false);
    };
    let moves = program.moves.as_slice();
    if low_cutter(&USUAL, moves).is_some() {
        return Ok(false);
    }
    Ok(marks_of(alloc, &USUAL, moves, question)?.as_slice() == due)
}

/// A move without a cutter, then a thin cutter, a thick one, and the thin one again.
const CUTTERS: &[u8] = b"FROM/0,0,0\n\
GOTO/0,0,0\n\
CUTTER/2,0\n\
GOTO/0,0,0\n\
CUTTER/6,0\n\
GOTO/0,0,0\n\
GOTO/0,0,0\n\
CUTTER/2,0\n\
GOTO/0,0,0\n";

#[test]
fn marks_each_move_by_its_cutter(rt: HostRuntime) -> Result<(), Fail> {
    let beside = Question {
        point: [2_000, 0, 1_000],
        depth: 0,
        slabs: 16,
    };
    let due = [
        None,
        Some(Mark::Clear),
        Some(Mark::Removed),
        Some(Mark::Removed),
        Some(Mark::Clear),
    ];
    assert!(rt; are_marked(rt.alloc(), CUTTERS, &beside, &due)?);
    Ok(())
}

/// A ball cutter that doesn't move, upright.
const BALL: &[u8] = b"CUTTER/2,1\nFROM/0,0,0\nGOTO/0,0,0\n";

#[test]
fn marks_at_the_height_where_the_file_gives_none(rt: HostRuntime) -> Result<(), Fail> {
    let at_its_top = Question {
        point: [0, 0, 300_000],
        depth: 0,
        slabs: 16,
    };
    let at = are_marked(rt.alloc(), BALL, &at_its_top, &[Some(Mark::Removed)])?;
    assert!(rt; at, "at its top");
    let above_it = Question {
        point: [0, 0, 300_001],
        depth: 0,
        slabs: 16,
    };
    let above = are_marked(rt.alloc(), BALL, &above_it, &[Some(Mark::Clear)])?;
    assert!(rt; above, "above it");
    Ok(())
}
