ghost use Rattle.std.specs.Prelude.{◌≡◌, ◌^◌, ◌<◌, ◌≤◌, false, All, IsTrue};
ghost use Rattle.std.specs.List.{list_all};
ghost use Rattle.space.specs.Ranges.{IsPoint};
ghost use Rattle.space.specs.Reach.{is_in_reach};
ghost use Rattle.bern_form.specs.Marks.{NeverHeld, held_at_sample, is_unexcluded_on_cell};
ghost use Rattle.bern_form.specs.Sizes.{scale_limit};
ghost use Rattle.bern_form.specs.Slab.{IsSlab, SlabSize};
ghost use Rattle.axis_cells.specs.Exclusion.{fits_in_reach};
ghost use Rattle.axis_cells.specs.Marked.{mark_from};

use crate::cell::Cell;
use crate::mark::Mark;
use crate::point::cells_of;
use crate::pose::Pose;
use crate::reach::in_reach;
use crate::sample::Sample;
use crate::sweep::Sweep;
use bern_form::Slab;

/// Whether some of the slabs holds the point at a sample, one of the times `k / scale`.
fn is_held_at_sample(sweep: &Sweep, slabs: &[Slab], point: &[i32; 3], scale: u32) -> bool
    requires point { IsPoint point.now }
    requires scale { scale ≤ scale_limit }
    ensures { result ≡ held_at_sample slabs.now sweep.now point.now scale }
{
    for k in 0..scale + 1 {
        let pose = Pose::at_sample(sweep, point, k, scale);
        if Sample::of_pose(&pose, scale).is_covered_by_some(slabs) {
            return true;
        }
    }
    false
}

/// Whether some of the slabs is not excluded on some cell.
fn is_unexcluded_on_cell(sweep: &Sweep, slabs: &[Slab], point: &[i32; 3], scale: u32) -> bool
    requires point { IsPoint point.now }
    requires scale { scale ≤ scale_limit }
    ensures { result ≡ is_unexcluded_on_cell slabs.now sweep.now point.now scale }
{
    for k in 0..scale {
        if Cell::of_point(sweep, point, k, scale).leaves_some(slabs) {
            return true;
        }
    }
    false
}

/// Whether a slab is no higher and wider together than the reach.
#[inline]
fn fits_in_reach(slab: &Slab, reach: i32) -> bool
    ensures test { result ≡ fits_in_reach reach slab.now }
    ensures valid { IsSlab slab.now }
{
    slab.hi + slab.dia <= reach
}

/// Whether each of the slabs is no higher and wider together than the reach.
fn all_fit_in_reach(slabs: &[Slab], reach: i32) -> bool
    ensures test { result ≡ list_all (fits_in_reach reach) slabs.now }
    ensures valid { IsTrue result → All IsSlab slabs.now }
{
    for slab in slabs {
        if !fits_in_reach(slab, reach) {
            return false;
        }
    }
    true
}

/// The same as `is_held_at_sample`, for a point out of reach. Slabs that fit into the reach hold no such point at any time, so
/// no sample is tested. So the many moves that are far from a point cost next to nothing.
fn is_held_out_of_reach(
    sweep: &Sweep,
    slabs: &[Slab],
    reach: i32,
    point: &[i32; 3],
    scale: u32,
) -> bool
    requires out { is_in_reach reach sweep.now.from sweep.now.to point.now ≡ false }
    requires point { IsPoint point.now }
    requires some { 0 < scale }
    requires scale { scale ≤ scale_limit }
    ensures { result ≡ held_at_sample slabs.now sweep.now point.now scale }
{
    // Reading a field of the sweep gives the prover its invariant.
    let _valid = &sweep.from;
    if all_fit_in_reach(slabs, reach) {
        return false;
    }
    is_held_at_sample(sweep, slabs, point, scale)
}

/// The mark of a point by the two stacks of a cutter, or by any two lists of slabs. Removed where some inner slab holds the
/// point at some sample; else possible where the point is in reach and some outer slab is not excluded on some cell; else
/// clear. A clear point within reach is held by no outer slab at any rational time of the move.
pub fn plain_mark(
    sweep: &Sweep,
    inner: &[Slab],
    outer: &[Slab],
    reach: i32,
    point: [i32; 3],
    depth: u32,
) -> Mark
    requires point { IsPoint point }
    requires depth { depth ≤ 10 }
    ensures mark { result ≡ mark_from inner.now outer.now reach sweep.now point (2 ^ depth) }
    ensures clear { result ≡ Mark.Clear → IsTrue (is_in_reach reach sweep.now.from sweep.now.to point)
        → NeverHeld outer.now sweep.now point }
{
    let scale = cells_of(depth);
    if !in_reach(sweep, reach, point) {
        if is_held_out_of_reach(sweep, inner, reach, &point, scale) {
            return Mark::Removed;
        }
        return Mark::Clear;
    }
    if is_held_at_sample(sweep, inner, &point, scale) {
        return Mark::Removed;
    }
    if is_unexcluded_on_cell(sweep, outer, &point, scale) {
        return Mark::Possible;
    }
    Mark::Clear
}
