ghost use Rattle.std.specs.Prelude.{◌≡◌, ℕ, ◌^◌, ◌<◌, ◌≤◌, false, IsTrue, IfOk, length};
ghost use Rattle.vf_spans.specs.Members.{has};
ghost use Rattle.ray_grid.specs.Lattice.{IsRay, point_of, points_of};
ghost use Rattle.holder_check.specs.Holder.{HolderMeets, is_holder_possible, is_holder_sure};

use crate::flags::push_if;
use crate::point::{holder_reach, mark_of_point};
use axis_cells::Sweep;
use bern_form::Slab;
use ray_grid::{Grid, Ray};
use std::alloc::Global;
use vf_io::NoMemory;
use vf_spans::Spans;

/// The points of a ray that a holder is sure to meet, and those that it may meet, by their indices. What is sure is possible too.
#[derive(Drop)]
pub struct HolderMarks {
    pub sure: Spans,
    pub possible: Spans,
}

/// The same, of which nothing is said but by the tests of samples and cells.
fn marks_by_points(
    alloc: Global,
    grid: &Grid,
    ray: &Ray,
    sweep: &Sweep,
    holder: &Slab,
    depth: u32,
) -> Result<HolderMarks, NoMemory>
    requires ray { IsRay grid.now ray.now }
    requires depth { depth ≤ 10 }
    ensures bound_sure { IfOk result (λ marks. length marks.sure ≡ points_of grid.now ray.now.family) }
    ensures bound_possible { IfOk result (λ marks. length marks.possible ≡ points_of grid.now ray.now.family) }
    ensures sure { let point = point_of grid.now ray.now in IfOk result (λ marks. (l : ℕ) → l < points_of grid.now ray.now.family
        → has marks.sure l ≡ is_holder_sure holder.now sweep.now (point l) (2 ^ depth)) }
    ensures possible { let point = point_of grid.now ray.now in IfOk result (λ marks. (l : ℕ) → l < points_of grid.now ray.now.family
        → has marks.possible l ≡ is_holder_possible holder.now sweep.now (point l) (2 ^ depth)) }
{
    // Reading a field of the slab gives the prover its invariant.
    let _slab = &holder.lo;
    let bound = grid.points(ray.family);
    let (from, to) = grid.window(ray, sweep.from, sweep.to, holder_reach(holder));
    let mut sure = Spans::new(alloc, bound);
    let mut possible = Spans::new(alloc, bound);
    for l in from..to {
        let mark = mark_of_point(sweep, holder, grid.point(ray, l), depth);
        push_if(&mut sure, mark.sure, l)?;
        push_if(&mut possible, mark.possible, l)?;
    }
    Ok(HolderMarks { sure, possible })
}

/// Which points of a ray the holder of a move is sure to meet and which it may meet, at the samples and on the cells of a depth. The
/// holder is a slab: the heights above the tip between which it lies, and its diameter. It meets each sure point at some rational time
/// of the move, and no point that is not possible at any. Only points within its reach are tested.
pub fn holder_marks(
    alloc: Global,
    grid: &Grid,
    ray: &Ray,
    sweep: &Sweep,
    holder: &Slab,
    depth: u32,
) -> Result<HolderMarks, NoMemory>
    requires ray { IsRay grid.now ray.now }
    requires depth { depth ≤ 10 }
    ensures bound_sure { IfOk result (λ marks. length marks.sure ≡ points_of grid.now ray.now.family) }
    ensures bound_possible { IfOk result (λ marks. length marks.possible ≡ points_of grid.now ray.now.family) }
    ensures sure { let point = point_of grid.now ray.now in IfOk result (λ marks. (l : ℕ) → l < points_of grid.now ray.now.family
        → has marks.sure l ≡ is_holder_sure holder.now sweep.now (point l) (2 ^ depth)) }
    ensures possible { let point = point_of grid.now ray.now in IfOk result (λ marks. (l : ℕ) → l < points_of grid.now ray.now.family
        → has marks.possible l ≡ is_holder_possible holder.now sweep.now (point l) (2 ^ depth)) }
    ensures included { IfOk result (λ marks. (l : ℕ) → IsTrue (has marks.sure l) → IsTrue (has marks.possible l)) }
    ensures met { let point = point_of grid.now ray.now in
        IfOk result (λ marks. (l : ℕ) → IsTrue (has marks.sure l) → HolderMeets holder.now sweep.now (point l)) }
    ensures clear { let point = point_of grid.now ray.now in IfOk result (λ marks. (l : ℕ) → l < points_of grid.now ray.now.family
        → has marks.possible l ≡ false → ¬ HolderMeets holder.now sweep.now (point l)) }
{
    // Reading a field of the sweep and of the slab gives the prover their invariants.
    let _valid = &sweep.from;
    let _slab = &holder.lo;
    marks_by_points(alloc, grid, ray, sweep, holder, depth)
}
