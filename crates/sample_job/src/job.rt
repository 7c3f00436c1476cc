ghost use Rattle.std.specs.Prelude.{◌≡◌, ◌*◌, ◌+◌, ◌≤◌, All, IfOk, length};
ghost use Rattle.ray_grid.specs.Strips.{strips_of};
ghost use Rattle.edit_plan.specs.Edits.{AppliesBelow};
ghost use Rattle.edit_plan.specs.Limits.{most_edits};

use axis_cells::Sweep;
use cutter_slabs::Cutter;
use edit_plan::{Edit, Edits};
use ray_grid::Grid;
use std::alloc::Global;
use strip_plan::{Plan, PlanMove};
use vf_io::NoMemory;

/// A flat cutter of 2 mm that is upright on one point, and then on another.
fn moves(alloc: Global) -> Result<Vec<PlanMove>, NoMemory>
    ensures { IfOk result (λ moves. length moves.items ≡ 2) }
{
    let flat = Cutter {
        d: 2_000,
        r: 0,
        h: 5_000,
        flank: 0,
        base: 0,
    };
    let first = Sweep {
        from: [0, 0, 1_000],
        to: [0, 0, 1_000],
        axis_from: [0, 0, 100_000],
        axis_to: [0, 0, 100_000],
    };
    let second = Sweep {
        from: [2_000, 2_000, 1_000],
        to: [2_000, 2_000, 1_000],
        axis_from: [0, 0, 100_000],
        axis_to: [0, 0, 100_000],
    };
    let mut moves = Vec::new(alloc);
    moves.push(PlanMove::new(first, flat, false, 3))?;
    moves.push(PlanMove::new(second, flat, false, 5))?;
    Ok(moves)
}

/// Both moves are applied and dropped, `rounds` times, and then only the second is applied.
pub fn edits(alloc: Global, rounds: u32) -> Result<Edits, NoMemory>
    ensures many { IfOk result (λ edits. length edits ≡ 4 * rounds + 1) }
    ensures named { IfOk result (λ edits. All (AppliesBelow 2) edits) }
{
    let mut edits = Edits::new(alloc);
    for _round in 0..rounds {
        edits.push(Edit::Apply(0))?;
        edits.push(Edit::Apply(1))?;
        edits.push(Edit::Undo)?;
        edits.push(Edit::Undo)?;
    }
    edits.push(Edit::Apply(1))?;
    Ok(edits)
}

/// The plan of the two moves with edits, on a lattice of 3 by 3 by 2 nodes.
pub fn plan(alloc: Global, edits: Edits) -> Result<Plan, NoMemory>
    requires few { length edits ≤ most_edits }
    requires named { All (AppliesBelow 2) edits }
    ensures edits { IfOk result (λ plan. plan.edits ≡ edits) }
    ensures strips { IfOk result (λ plan. length (strips_of plan.grid) ≡ 9) }
{
    let grid = Grid {
        origin: [0, 0, 0],
        pitch: 1_000,
        step: 500,
        counts: [3, 3, 2],
    };
    Plan::new(alloc, grid, 8, 2, moves(alloc)?, edits)
}
