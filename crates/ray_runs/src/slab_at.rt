ghost use Rattle.std.specs.Prelude.{◌≡◌, ◌^◌, ◌≤◌, ◌<◌, Contains, IfSome, length, true};
ghost use Rattle.space.specs.Ranges.{IsPoint};
ghost use Rattle.bern_form.specs.Slab.{holds_at};

use axis_cells::{Pose, Sample, Sweep, cells_of};
use bern_form::Slab;

/// The highest of the slabs that begins no higher than the point is, or the lowest.
fn reached(at: &Sample, slabs: &[Slab]) -> usize
    requires { 0 < length slabs.now }
    ensures { result < length slabs.now }
{
    let height = at.u * at.u;
    let mut i = slabs.len() - 1;
    while 0 < i {
        let slab = &slabs[i];
        if at.squared(slab.lo) <= height {
            return i;
        }
        i -= 1;
    }
    i
}

/// A slab that holds a point at a sample: the highest that begins no higher than the point is, where that one does. Of slabs that rise
/// no other can.
pub fn slab_at(sweep: &Sweep, slabs: &[Slab], point: &[i32; 3], k: u32, depth: u32) -> Option<Slab>
    requires point { IsPoint point.now }
    requires depth { depth ≤ 10 }
    requires sample { k ≤ 2 ^ depth }
    ensures holds { IfSome result (λ s. holds_at s sweep.now point.now k (2 ^ depth) ≡ true) }
    ensures one { IfSome result (λ s. Contains slabs.now s) }
{
    if slabs.is_empty() {
        return None;
    }
    let scale = cells_of(depth);
    let at = Sample::of_pose(&Pose::at_sample(sweep, point, k, scale), scale);
    let slab = slabs[reached(&at, slabs)];
    if !at.is_covered_by(&slab) {
        return None;
    }
    Some(slab)
}
