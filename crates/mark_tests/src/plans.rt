ghost use Rattle.std.specs.Prelude.{◌≡◌, ◌≤◌, All, IfOk, length};
ghost use Rattle.edit_plan.specs.Edits.{AppliesBelow};
ghost use Rattle.edit_plan.specs.Limits.{most_edits};

use axis_cells::Sweep;
use cutter_slabs::Cutter;
use edit_plan::{Edit, Edits};
use ray_grid::{Family, Grid};
use std::alloc::Global;
use std::test::Fail;
use strip_plan::{Plan, PlanMove};
use vf_io::NoMemory;

/// A flat cutter of 1 mm along x at y = 0 and along y at x = 7 mm, the latter in rapid motion, and a ball cutter of 2 mm along x at
/// y = 7 mm and a tenth of a millimetre back, all upright with the tip at z = 0.
fn moves(alloc: Global) -> Result<Vec<PlanMove>, NoMemory>
    ensures { IfOk result (λ moves. length moves.items ≡ 4) }
{
    let flat = Cutter {
        d: 1_000,
        r: 0,
        h: 5_000,
        flank: 0,
        base: 0,
    };
    let ball = Cutter {
        d: 2_000,
        r: 1_000,
        h: 5_000,
        flank: 0,
        base: 0,
    };
    let along_x = Sweep {
        from: [0, 0, 0],
        to: [1_000, 0, 0],
        axis_from: [0, 0, 1],
        axis_to: [0, 0, 1],
    };
    let along_y = Sweep {
        from: [7_000, 0, 0],
        to: [7_000, 7_000, 0],
        axis_from: [0, 0, 1],
        axis_to: [0, 0, 1],
    };
    let back = Sweep {
        from: [7_000, 7_000, 0],
        to: [0, 7_000, 0],
        axis_from: [0, 0, 1],
        axis_to: [0, 0, 1],
    };
    let short = Sweep {
        from: [0, 7_000, 0],
        to: [100, 7_000, 0],
        axis_from: [0, 0, 1],
        axis_to: [0, 0, 1],
    };
    let mut moves = Vec::new(alloc);
    moves.push(PlanMove::new(along_x, flat, false, 3))?;
    moves.push(PlanMove::new(along_y, flat, true, 5))?;
    moves.push(PlanMove::new(back, ball, false, 7))?;
    moves.push(PlanMove::new(short, ball, false, 9))?;
    Ok(moves)
}

/// A move is applied, another one, which is dropped and taken back, and the last one.
fn edits(alloc: Global) -> Result<Edits, NoMemory>
    ensures few { IfOk result (λ edits. length edits ≤ most_edits) }
    ensures named { IfOk result (λ edits. All (AppliesBelow 4) edits) }
{
    let mut edits = Edits::new(alloc);
    edits.push(Edit::Apply(0))?;
    edits.push(Edit::Apply(2))?;
    edits.push(Edit::Undo)?;
    edits.push(Edit::Redo)?;
    edits.push(Edit::Apply(1))?;
    Ok(edits)
}

/// The plan of the moves on a lattice of 8 mm by 8 mm with nodes at each millimetre and points at each half of one.
fn plan(alloc: Global) -> Result<Plan, NoMemory> {
    let grid = Grid {
        origin: [0, 0, 0],
        pitch: 1_000,
        step: 500,
        counts: [8, 8, 2],
    };
    Plan::new(alloc, grid, 4, 3, moves(alloc)?, edits(alloc)?)
}

/// The edit after a version, where the plan has it.
fn edit(plan: &Plan, version: u32) -> Option<Edit> {
    if version < plan.edits() {
        Some(plan.edit(version))
    } else {
        None
    }
}

/// Whether a move is in rapid motion, where the plan has it.
fn is_rapid(plan: &Plan, number: u32) -> Option<bool> {
    if number < plan.moves() {
        Some(plan.is_rapid(number))
    } else {
        None
    }
}

/// The window of a move on all rays of a strip, where the plan has the move.
fn strip_along(plan: &Plan, number: u32, family: Family, i: u32) -> Option<(u32, u32)> {
    if number < plan.moves() {
        Some(plan.strip_along(number, family, i))
    } else {
        None
    }
}

/// The window of a move in a strip, where the plan has both.
fn strip_window(plan: &Plan, number: u32, strip: u32) -> Option<(u32, u32)> {
    if number < plan.moves() && strip < plan.grid().strips() {
        Some(plan.strip_window(number, strip))
    } else {
        None
    }
}

/// Whether the plan has 24 strips, four moves and five edits, and these are in their places.
fn has_its_moves(plan: &Plan) -> bool {
    plan.grid().strips() == 24
        && plan.moves() == 4
        && plan.edits() == 5
        && edit(plan, 0) == Some(Edit::Apply(0))
        && edit(plan, 3) == Some(Edit::Redo)
        && edit(plan, 5).is_none()
        && is_rapid(plan, 0) == Some(false)
        && is_rapid(plan, 1) == Some(true)
}

#[test]
fn what_a_plan_has(rt: HostRuntime) -> Result<(), Fail> {
    assert!(rt; has_its_moves(&plan(rt.alloc())?));
    Ok(())
}

/// Where a move is possible: along the rays of a strip, and on which of a strip's rays.
#[derive(Clone, Copy)]
enum Place {
    Along(Family, u32),
    Strip(u32),
}

/// Moves, and their windows.
const WINDOWS: [(u32, Place, Option<(u32, u32)>); 12] = [
    (0, Place::Along(Family::X, 0), Some((0, 4))),
    (0, Place::Along(Family::X, 7), Some((0, 0))),
    (1, Place::Along(Family::X, 3), Some((13, 16))),
    (2, Place::Along(Family::X, 7), Some((0, 16))),
    (2, Place::Along(Family::Y, 3), Some((12, 16))),
    (3, Place::Along(Family::X, 7), Some((0, 3))),
    (3, Place::Along(Family::Y, 0), Some((12, 16))),
    (4, Place::Along(Family::X, 0), None),
    (0, Place::Strip(0), Some((0, 1))),
    (0, Place::Strip(5), Some((0, 0))),
    (2, Place::Strip(8), Some((0, 0))),
    (2, Place::Strip(15), Some((0, 2))),
];

/// The first of the windows that isn't the plan's, where there is one.
fn first_other(plan: &Plan) -> Option<usize> {
    for (row, (number, place, due)) in WINDOWS.iter().enumerate() {
        let window = match *place {
            Place::Along(family, i) => strip_along(plan, *number, family, i),
            Place::Strip(strip) => strip_window(plan, *number, strip),
        };
        if window != *due {
            return Some(row);
        }
    }
    None
}

/// The rays along x come after the 8 strips of those along z: strip 8 has y = 0, and strip 15 has y = 7 mm. Only the short move has
/// one box.
#[test]
fn where_moves_are_possible(rt: HostRuntime) -> Result<(), Fail> {
    assert_eq!(rt; first_other(&plan(rt.alloc())?), None);
    Ok(())
}
