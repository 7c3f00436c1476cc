ghost use Rattle.std.specs.Prelude.{◌≡◌, ℕ, ◌+◌, ◌*◌, ◌^◌, ◌<◌, ◌≤◌, true, false, IfOk, length, pos};
ghost use Rattle.vf_spans.specs.Members.{has};
ghost use Rattle.ray_grid.specs.Lattice.{IsRay, point_of, points_of};
ghost use Rattle.cutter_slabs.specs.Meets.{MeetsLower, MeetsUpper};
ghost use Rattle.cutter_slabs.specs.Stacks.{outer_stack, reach_of};
ghost use Rattle.cutter_marks.specs.MarkBy.{is_possible_by, is_sure_by};
ghost use Rattle.box_bisect.specs.RayBoxes.{undecided_along};
ghost use Rattle.box_bisect.specs.RayMarks.{AreInReach, flags_along};

use crate::ray::flags::{possible_of, sure_of};
use crate::ray::ray_box::RayBox;
use crate::ray::search::{is_undecided, mark_children};
use axis_cells::{Mark, Sweep, cells_of};
use cutter_slabs::Stacks;
use ray_grid::{Grid, Ray};
use std::alloc::Global;
use std::sync::ledger::Ledger;
use vf_io::NoMemory;
use vf_spans::Spans;
use vf_steps::Steps;

/// The points of a ray that a move is sure to cut, and those that it may meet, by their indices.
#[derive(Drop)]
pub struct RayMarks {
    pub sure: Spans,
    pub possible: Spans,
}

impl RayMarks {
    /// No point is sure or possible. It takes no memory.
    fn none(alloc: Global, bound: u32) -> RayMarks
        ensures sure_bound { length result.sure ≡ bound }
        ensures possible_bound { length result.possible ≡ bound }
        ensures sure { (l : ℕ) → has result.sure l ≡ false }
        ensures possible { (l : ℕ) → has result.possible l ≡ false }
    {
        RayMarks {
            sure: Spans::new(alloc, bound),
            possible: Spans::new(alloc, bound),
        }
    }
}

/// The same, of which nothing is said but by the tests of samples and cells.
fn marks_by_halving<L: Ledger>(
    alloc: Global,
    grid: &Grid,
    ray: &Ray,
    sweep: &Sweep,
    stacks: &Stacks,
    depth: u32,
    steps: &mut Steps<L>,
) -> Result<RayMarks, NoMemory>
    requires ray { IsRay grid.now ray.now }
    requires depth { depth ≤ 10 }
    ensures sure { let is_sure = is_sure_by stacks.now.cutter stacks.now.slabs sweep.now in
        let count = points_of grid.now ray.now.family in
        IfOk result (λ marks. marks.sure ≡ flags_along (λ p. is_sure p (2 ^ depth)) (point_of grid.now ray.now) count) }
    ensures possible { let is_possible = is_possible_by stacks.now.cutter stacks.now.slabs sweep.now in
        let count = points_of grid.now ray.now.family in
        IfOk result (λ marks. marks.possible ≡ flags_along (λ p. is_possible p (2 ^ depth)) (point_of grid.now ray.now) count) }
    ensures cost { let outer = outer_stack stacks.now.cutter stacks.now.slabs in let point = point_of grid.now ray.now in
        (a b : ℕ) → AreInReach (pos (reach_of stacks.now.cutter)) sweep.now point (points_of grid.now ray.now.family) a b
        → steps.new ≤ steps.old + length outer * (1 + 4 * undecided_along outer sweep.now point depth a b) }
{
    let inner = stacks.inner();
    let outer = stacks.outer();
    let bound = grid.points(ray.family);
    let (from, to) = grid.window(ray, sweep.from, sweep.to, stacks.reach());
    if from == to {
        return Ok(RayMarks::none(alloc, bound));
    }
    let scale = cells_of(depth);
    let cell_box = RayBox {
        levels: depth,
        first: 0,
        from,
        to,
    };
    if !is_undecided(grid, ray, sweep, outer, scale, cell_box, steps) {
        return Ok(RayMarks::none(alloc, bound));
    }
    let mut marks = vec![in alloc; Mark::Clear; bound as usize]?;
    let row = marks.as_mut_slice();
    mark_children(grid, ray, sweep, inner, outer, scale, cell_box, row, steps);
    Ok(RayMarks {
        sure: sure_of(alloc, row)?,
        possible: possible_of(alloc, row)?,
    })
}

/// The marks of the points of a ray by the stacks and the reach of a cutter, at the samples and on the cells of a depth, found by
/// halving boxes in time and along the ray. The lower cutter meets each sure point at some rational time of the move, and the upper
/// one no point that is not possible. Memory is taken only where the whole of what is in reach is undecided.
///
/// One step is the test of one slab on one box or at one sample. They are bounded by the boxes that are undecided, of those in time
/// and along the ray from `a` on and below `b`, the indices of what is in reach of the move.
pub fn mark_ray<L: Ledger>(
    alloc: Global,
    grid: &Grid,
    ray: &Ray,
    sweep: &Sweep,
    stacks: &Stacks,
    depth: u32,
    steps: &mut Steps<L>,
) -> Result<RayMarks, NoMemory>
    requires ray { IsRay grid.now ray.now }
    requires depth { depth ≤ 10 }
    ensures sure { let is_sure = is_sure_by stacks.now.cutter stacks.now.slabs sweep.now in
        let count = points_of grid.now ray.now.family in
        IfOk result (λ marks. marks.sure ≡ flags_along (λ p. is_sure p (2 ^ depth)) (point_of grid.now ray.now) count) }
    ensures possible { let is_possible = is_possible_by stacks.now.cutter stacks.now.slabs sweep.now in
        let count = points_of grid.now ray.now.family in
        IfOk result (λ marks. marks.possible ≡ flags_along (λ p. is_possible p (2 ^ depth)) (point_of grid.now ray.now) count) }
    ensures cost { let outer = outer_stack stacks.now.cutter stacks.now.slabs in let point = point_of grid.now ray.now in
        (a b : ℕ) → AreInReach (pos (reach_of stacks.now.cutter)) sweep.now point (points_of grid.now ray.now.family) a b
        → steps.new ≤ steps.old + length outer * (1 + 4 * undecided_along outer sweep.now point depth a b) }
    ensures met { let cutter = stacks.now.cutter in let point = point_of grid.now ray.now in
        IfOk result (λ marks. (l : ℕ) → has marks.sure l ≡ true → MeetsLower cutter sweep.now (point l)) }
    ensures clear { let cutter = stacks.now.cutter in let point = point_of grid.now ray.now in
        let count = points_of grid.now ray.now.family in
        IfOk result (λ marks. (l : ℕ) → l < count → has marks.possible l ≡ false → ¬ MeetsUpper cutter sweep.now (point l)) }
{
    // A sweep is valid by its type: reading a field gives the prover its invariant. So does a call on the stacks.
    let _valid = &sweep.from;
    let _inner = stacks.inner();
    let _outer = stacks.outer();
    marks_by_halving(alloc, grid, ray, sweep, stacks, depth, steps)
}
