ghost use Rattle.std.specs.Prelude.{◌≡◌, ◌^◌, ◌<◌, ◌≤◌, ℕ, false, IsTrue};
ghost use Rattle.space.specs.Ranges.{IsPoint};
ghost use Rattle.bern_form.specs.Slab.{holds_at};
ghost use Rattle.bern_form.specs.Cells.{IsInCell, is_excluded};
ghost use Rattle.bern_form.specs.Sizes.{scale_limit};
ghost use Rattle.axis_cells.specs.Exclusion.{CoefficientsAreSmall};

use crate::cell::Cell;
use crate::pose::Pose;
use crate::sample::Sample;
use crate::sweep::Sweep;
use bern_form::Slab;

/// How many cells a depth has: 2^depth.
#[inline]
pub fn cells_of(depth: u32) -> u32
    requires { depth ≤ 10 }
    ensures cells { result ≡ 2 ^ depth }
    ensures some { 0 < result }
    ensures few { result ≤ scale_limit }
{
    1 << depth
}

/// Whether the slab holds the point at the time `k / 2^depth`.
pub fn at_sample(sweep: &Sweep, slab: &Slab, point: [i32; 3], k: u32, depth: u32) -> bool
    requires point { IsPoint point }
    requires depth { depth ≤ 10 }
    requires sample { k ≤ 2 ^ depth }
    ensures { result ≡ holds_at slab.now sweep.now point k (2 ^ depth) }
{
    let scale = cells_of(depth);
    let pose = Pose::at_sample(sweep, &point, k, scale);
    Sample::of_pose(&pose, scale).is_covered_by(slab)
}

/// Whether the slab is excluded on cell `k`, the times from `k / 2^depth` to `(k + 1) / 2^depth`, by the strict common sign of
/// a coefficient list. It then holds the point at no rational time of the cell, ends included. All coefficients stay below
/// 4 * 10^37.
pub fn cell_excludes(sweep: &Sweep, slab: &Slab, point: [i32; 3], k: u32, depth: u32) -> bool
    requires point { IsPoint point }
    requires depth { depth ≤ 10 }
    requires cell { k < 2 ^ depth }
    ensures rule { result ≡ is_excluded slab.now sweep.now point k (2 ^ depth) }
    ensures small { CoefficientsAreSmall slab.now sweep.now point k (2 ^ depth) }
    ensures never { IsTrue result → (a b : ℕ) → IsInCell k (2 ^ depth) a b → holds_at slab.now sweep.now point a b ≡ false }
{
    // Reading a field of a sweep and of a slab gives the prover their invariants.
    let _valid = &sweep.from;
    let _slab = &slab.lo;
    Cell::of_point(sweep, &point, k, cells_of(depth)).excludes(slab)
}
