ghost use Rattle.std.specs.Prelude.{◌≤◌, IfOk, length};
ghost use Rattle.strip_plan.specs.Parts.{AreStacksOf};
ghost use Rattle.strip_plan.specs.ReadyMoves.{HasReadyMoves};

use crate::cutters::Cutters;
use crate::plan_move::PlanMove;
use ray_grid::Grid;
use std::alloc::Global;
use vf_io::NoMemory;
use wanted_marks::ReadyMove;

/// What is computed of each move from one number to another for its marks, once for all strips that it enters. The second is excluded.
/// Fails only when out of memory.
pub(crate) fn ready_moves_of(
    alloc: Global,
    grid: &Grid,
    depth: u32,
    moves: &[PlanMove],
    cutters: &Cutters,
    from: usize,
    to: usize,
) -> Result<Vec<ReadyMove>, NoMemory>
    requires shallow { depth ≤ 10 }
    requires stacks { AreStacksOf moves.now cutters.now }
    requires order { from ≤ to }
    requires within { to ≤ length moves.now }
    ensures { IfOk result (λ made. HasReadyMoves cutters.now.slabs depth moves.now from to made.items) }
{
    let mut ready = Vec::with_capacity(alloc, to - from)?;
    for n in from..to {
        let next = &moves[n];
        let place = cutters.places[n];
        ready.push(ReadyMove::new(&next.sweep, &cutters.stacks[place], depth, grid))?;
    }
    Ok(ready)
}
