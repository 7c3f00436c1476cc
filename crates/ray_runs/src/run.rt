ghost use Rattle.std.specs.Prelude.{◌≡◌, ℕ, ◌^◌, ◌≤◌, ◌<◌, IfSome, true};
ghost use Rattle.bern_form.specs.Slab.{holds_at};
ghost use Rattle.ray_grid.specs.Lattice.{IsRay, point_of, points_of};
ghost use Rattle.ray_runs.specs.Between.{AreSure};

use crate::likely::likely_sample;
use crate::slab_at::slab_at;
use axis_cells::{Sweep, at_sample, cells_of};
use bern_form::Slab;
use cutter_slabs::Stacks;
use ray_grid::{Grid, Ray};

/// Points of a ray by their indices, from the first to the last, both included.
#[derive(Clone, Copy)]
pub struct Run {
    pub first: u32,
    pub last: u32,
}

/// A point before the one at `middle` that the slab holds at a sample, too: the one at `from`, or else one that is found by halving the
/// way from there.
fn first_held(
    sweep: &Sweep,
    slab: &Slab,
    grid: &Grid,
    ray: &Ray,
    k: u32,
    depth: u32,
    from: u32,
    middle: u32,
) -> u32
    requires ray { IsRay grid.now ray.now }
    requires depth { depth ≤ 10 }
    requires sample { k ≤ 2 ^ depth }
    requires order { from ≤ middle }
    requires within { middle < points_of grid.now ray.now.family }
    requires held { holds_at slab.now sweep.now (point_of grid.now ray.now middle) k (2 ^ depth) ≡ true }
    ensures after { from ≤ result }
    ensures before { result ≤ middle }
    ensures held { holds_at slab.now sweep.now (point_of grid.now ray.now result) k (2 ^ depth) ≡ true }
{
    let mut gap = middle - from;
    while 0 < gap {
        if at_sample(sweep, slab, grid.point(ray, middle - gap), k, depth) {
            return middle - gap;
        }
        gap /= 2;
    }
    middle
}

/// The same of one after it.
fn last_held(
    sweep: &Sweep,
    slab: &Slab,
    grid: &Grid,
    ray: &Ray,
    k: u32,
    depth: u32,
    middle: u32,
    to: u32,
) -> u32
    requires ray { IsRay grid.now ray.now }
    requires depth { depth ≤ 10 }
    requires sample { k ≤ 2 ^ depth }
    requires order { middle ≤ to }
    requires within { to < points_of grid.now ray.now.family }
    requires held { holds_at slab.now sweep.now (point_of grid.now ray.now middle) k (2 ^ depth) ≡ true }
    ensures after { middle ≤ result }
    ensures before { result ≤ to }
    ensures held { holds_at slab.now sweep.now (point_of grid.now ray.now result) k (2 ^ depth) ≡ true }
{
    let mut gap = to - middle;
    while 0 < gap {
        if at_sample(sweep, slab, grid.point(ray, middle + gap), k, depth) {
            return middle + gap;
        }
        gap /= 2;
    }
    middle
}

/// Some points from one index to another that a move is sure to cut, where a sample is found at which an inner slab holds the middle
/// one. Two points that the same slab holds at the same sample hold all between them there, since a slab is convex.
pub fn sure_run(
    sweep: &Sweep,
    stacks: &Stacks,
    depth: u32,
    grid: &Grid,
    ray: &Ray,
    from: u32,
    to: u32,
) -> Option<Run>
    requires ray { IsRay grid.now ray.now }
    requires depth { depth ≤ 10 }
    requires order { from ≤ to }
    requires within { to < points_of grid.now ray.now.family }
    ensures first { IfSome result (λ run. from ≤ run.first) }
    ensures order { IfSome result (λ run. run.first ≤ run.last) }
    ensures last { IfSome result (λ run. run.last ≤ to) }
    ensures sure { let point = point_of grid.now ray.now in
        IfSome result (λ run. AreSure stacks.now sweep.now point (2 ^ depth) run.first run.last) }
{
    let middle = from + (to - from) / 2;
    let point = grid.point(ray, middle);
    let k = likely_sample(sweep, &point, cells_of(depth));
    match slab_at(sweep, stacks.inner(), &point, k, depth) {
        None => None,
        Some(slab) => {
            let first = first_held(sweep, &slab, grid, ray, k, depth, from, middle);
            let last = last_held(sweep, &slab, grid, ray, k, depth, middle, to);
            Some(Run { first, last })
        }
    }
}
