ghost use Rattle.std.specs.Prelude.{◌≡◌, ◌<◌, ◌≤◌, ℕ, [], ◌∷◌, IfOk, OnOk, length};
ghost use Rattle.space.specs.Ranges.{IsWithin};
ghost use Rattle.ray_grid.specs.declared.ray.Ray.{Ray};
ghost use Rattle.ray_grid.specs.Grids.{GridSize};
ghost use Rattle.sweep_boxes.specs.Limits.{place_limit};
ghost use Rattle.strip_plan.specs.Boxed.{AreHeld, ArePushed, Covers, HasBoxes, IsInOneOf};
ghost use Rattle.strip_plan.specs.IndexBoxes.{AreBoxesOf, HasPoint, IsBoxOf};
ghost use Rattle.strip_plan.specs.Parts.{AreStacksOf};

use crate::bounds::bounds;
use crate::cutters::Cutters;
use crate::index_box::IndexBox;
use crate::indexed::indexed;
use crate::plan_move::PlanMove;
use axis_cells::Sweep;
use cutter_slabs::Stacks;
use ray_grid::Grid;
use std::alloc::Global;
use sweep_boxes::{PointBox, push_boxes};
use vf_io::NoMemory;

/// For each move the least box that holds its boxes; and where they are several, those too: of move n from `starts[n]` to
/// `starts[n + 1]`. Most moves have one, which is then its own hull.
#[derive(Drop)]
pub(crate) struct Boxes {
    pub(crate) hulls: Vec<IndexBox>,
    pub(crate) boxes: Vec<IndexBox>,
    pub(crate) starts: Vec<usize>,
}

/// The boxes of a move in a region.
fn boxes_in(
    alloc: Global,
    sweep: &Sweep,
    stacks: &Stacks,
    depth: u32,
    region: &PointBox,
) -> Result<Vec<PointBox>, NoMemory>
    requires depth { depth ≤ 10 }
    requires low { IsWithin place_limit region.now.low }
    requires high { IsWithin place_limit region.now.high }
    ensures { IfOk result (λ held. Covers held.items region.now stacks.now sweep.now depth) }
{
    let mut held = Vec::new(alloc);
    push_boxes(&mut held, sweep, stacks, depth, region)?;
    Ok(held)
}

/// Pushes boxes by their indices.
fn push_each(boxes: &mut Vec<IndexBox>, grid: &Grid, held: &[PointBox]) -> Result<(), NoMemory>
    ensures { OnOk result (ArePushed grid.now held.now boxes.old.items boxes.new.items (length held.now)) }
{
    for places in held {
        boxes.push(indexed(grid, places))?;
    }
    Ok(())
}

/// The least box that holds those from a place on.
fn hull_from(boxes: &[IndexBox], start: usize) -> IndexBox
    ensures fits { (grid : GridSize) → AreBoxesOf grid boxes.now → IsBoxOf grid result }
    ensures has { (ray : Ray) (l : ℕ) → IsInOneOf boxes.now start (length boxes.now) ray l → HasPoint result ray l }
{
    let mut hull = IndexBox::none();
    for place in start..boxes.len() {
        hull = hull.hull(&boxes[place]);
    }
    hull
}

/// Pushes the boxes of a move by their indices, where they are several. Returns the least box that holds them.
fn push_several(
    boxes: &mut Vec<IndexBox>,
    grid: &Grid,
    held: &[PointBox],
) -> Result<IndexBox, NoMemory>
    requires { AreBoxesOf grid.now boxes.old.items }
    ensures { IfOk result (λ hull. AreHeld grid.now held.now hull boxes.old.items boxes.new.items) }
{
    let start = boxes.len();
    push_each(boxes, grid, held)?;
    let hull = hull_from(boxes, start);
    if held.len() == 1 {
        boxes.truncate(start);
    }
    Ok(hull)
}

/// The boxes of no moves, with room for those of `many` moves. Fails only when out of memory.
fn no_boxes(alloc: Global, many: usize) -> Result<Boxes, NoMemory>
    ensures hulls { IfOk result (λ made. made.hulls.items ≡ []) }
    ensures boxes { IfOk result (λ made. made.boxes.items ≡ []) }
    ensures starts { IfOk result (λ made. made.starts.items ≡ 0 ∷ []) }
{
    let hulls = Vec::with_capacity(alloc, many)?;
    let mut starts = Vec::new(alloc);
    starts.push(0)?;
    Ok(Boxes {
        hulls,
        boxes: Vec::new(alloc),
        starts,
    })
}

/// The boxes of moves. Fails only when out of memory.
pub(crate) fn boxes_of(
    alloc: Global,
    grid: &Grid,
    depth: u32,
    moves: &[PlanMove],
    cutters: &Cutters,
) -> Result<Boxes, NoMemory>
    requires depth { depth ≤ 10 }
    requires stacks { AreStacksOf moves.now cutters.now }
    ensures { IfOk result (λ made. HasBoxes grid.now cutters.now.slabs depth moves.now made.hulls.items made.boxes.items
        made.starts.items (length moves.now)) }
{
    let region = bounds(grid);
    let mut made = no_boxes(alloc, moves.len())?;
    for n in 0..moves.len() {
        let next = &moves[n];
        let place = cutters.places[n];
        let held = boxes_in(alloc, &next.sweep, &cutters.stacks[place], depth, &region)?;
        let hull = push_several(&mut made.boxes, grid, &held)?;
        made.hulls.push(hull)?;
        made.starts.push(made.boxes.len())?;
    }
    Ok(made)
}
