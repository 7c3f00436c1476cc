ghost use Rattle.std.specs.Prelude.{ℕ, IfOk, length};
ghost use Rattle.strip_plan.specs.Cylinders.{HasCylinders};
ghost use Rattle.strip_plan.specs.Parts.{AreStacksOf};

use crate::bounds::bounds;
use crate::cutters::Cutters;
use crate::plan_move::PlanMove;
use ray_grid::Grid;
use std::alloc::Global;
use sweep_boxes::{BoundingCylinder, cylinder_of};
use vf_io::NoMemory;

/// For each move the cylinder that holds the points of the lattice at which it is possible. Fails only when out of memory.
pub(crate) fn cylinders_of(
    alloc: Global,
    grid: &Grid,
    moves: &[PlanMove],
    cutters: &Cutters,
) -> Result<Vec<BoundingCylinder>, NoMemory>
    requires { AreStacksOf moves.now cutters.now }
    ensures { (depth : ℕ) → IfOk result (λ made. HasCylinders grid.now cutters.now.slabs depth moves.now made.items (length moves.now)) }
{
    let region = bounds(grid);
    let mut cylinders = Vec::with_capacity(alloc, moves.len())?;
    for n in 0..moves.len() {
        let next = &moves[n];
        let place = cutters.places[n];
        cylinders.push(cylinder_of(&next.sweep, &cutters.stacks[place], &region))?;
    }
    Ok(cylinders)
}
