ghost use Rattle.std.specs.Prelude.{◌≡◌, ◌+◌, ◌*◌, ◌≤◌, ◌^◌, ℕ, List, ℤ, true, unsigned_abs};
ghost use Rattle.space.specs.Ranges.{IsWithin, vector_limit};
ghost use Rattle.space.specs.Sweeps.{SweepOf};
ghost use Rattle.bern_form.specs.Between.{is_unexcluded_between};
ghost use Rattle.bern_form.specs.Slab.{SlabSize};
ghost use Rattle.cutter_slabs.specs.Rising.{IsRising};
ghost use Rattle.cutter_marks.specs.MarkBy.{is_possible_by};
ghost use Rattle.sweep_boxes.specs.Boxes.{IsInBox};
ghost use Rattle.sweep_boxes.specs.Cylinders.{IsInCylinder};
ghost use Rattle.sweep_boxes.specs.Intervals.{AreAsLarge, AreFrom};
ghost use Rattle.sweep_boxes.specs.Limits.{place_limit, side_component_limit};
ghost use Rattle.sweep_boxes.specs.Lines.{AreBandsOf, IsBesidePlace, IsHeldPlace};
ghost use Rattle.sweep_boxes.specs.Made.{IsSweepInterval};

use crate::band::Band;
use crate::bands::bands_of;
use crate::bounds::bounds_of;
use crate::clip::clip_to_reach;
use crate::cut::interval_of;
use crate::cylinder::{BANDS, BoundingCylinder};
use crate::cylinder_bounds::CylinderBounds;
use crate::narrow::narrowed;
use crate::offsets::{farthest, offset_from};
use crate::point_box::PointBox;
use crate::side_bound::SideBound;
use crate::size::{Size, size_of};
use crate::spread::side_bound_of;
use crate::sweep_interval::SweepInterval;
use axis_cells::Sweep;
use bern_form::Slab;
use cutter_slabs::Stacks;

/// A number in 64 bits.
#[inline]
pub(crate) fn short(z: i128) -> i64
    requires { unsigned_abs z ≤ 4 * 10 ^ 18 }
    ensures { result ≡ z }
{
    z as i64
}

/// A vector with its components in 64 bits.
#[inline]
fn narrow(v: &[i128; 3]) -> [i64; 3]
    requires { IsWithin vector_limit v.now }
    ensures { result ≡ v.now }
{
    [short(v[0]), short(v[1]), short(v[2])]
}

/// What holds those places of a region that slabs of a size may be left at on an interval.
fn bounds_in(interval: &SweepInterval, size: &Size, region: &PointBox) -> CylinderBounds
    requires widest { unsigned_abs size.now.widest ≤ place_limit }
    requires highest { unsigned_abs size.now.highest ≤ place_limit }
    requires lowest { unsigned_abs size.now.lowest ≤ place_limit }
    requires low { IsWithin place_limit region.now.low }
    requires high { IsWithin place_limit region.now.high }
    ensures { (m : SweepOf) (k S : ℕ) (slabs : List SlabSize) (p : List ℤ) → IsSweepInterval interval.now m k S
        → AreAsLarge size.now.widest size.now.highest slabs → AreFrom size.now.lowest slabs → IsInBox region.now p
        → is_unexcluded_between slabs m p k (k + 1) S ≡ true → IsHeldPlace result interval.now p }
{
    let low = offset_from(interval.scale, &interval.tip, &region.low);
    let high = offset_from(interval.scale, &interval.tip, &region.high);
    bounds_of(
        interval,
        size.widest,
        size.highest,
        size.lowest,
        &low,
        &high,
    )
}

/// How far to either side of its way those places are.
fn side_bound_in(interval: &SweepInterval, size: &Size, region: &PointBox) -> SideBound
    requires widest { unsigned_abs size.now.widest ≤ place_limit }
    requires low { IsWithin place_limit region.now.low }
    requires high { IsWithin place_limit region.now.high }
    ensures { (m : SweepOf) (k S : ℕ) (slabs : List SlabSize) (p : List ℤ) → IsSweepInterval interval.now m k S
        → AreAsLarge size.now.widest size.now.highest slabs → IsInBox region.now p → is_unexcluded_between slabs m p k (k + 1) S ≡ true
        → IsBesidePlace result interval.now p }
{
    let low = offset_from(interval.scale, &interval.tip, &region.low);
    let high = offset_from(interval.scale, &interval.tip, &region.high);
    side_bound_of(interval, size.widest, &low, &high)
}

/// What is known of those places below some heights.
fn bands_in(
    interval: &SweepInterval,
    slabs: &[Slab],
    bounds: &CylinderBounds,
    side_bound: &SideBound,
    region: &PointBox,
) -> [Band; BANDS]
    requires rising { IsRising slabs.now }
    requires low { IsWithin place_limit region.now.low }
    requires high { IsWithin place_limit region.now.high }
    ensures { (m : SweepOf) (k S : ℕ) (p : List ℤ) → IsSweepInterval interval.now m k S → IsInBox region.now p
        → is_unexcluded_between slabs.now m p k (k + 1) S ≡ true → IsHeldPlace bounds.now interval.now p
        → AreBandsOf result side_bound.now.side interval.now p }
{
    let low = offset_from(interval.scale, &interval.tip, &region.low);
    let high = offset_from(interval.scale, &interval.tip, &region.high);
    bands_of(
        interval,
        slabs,
        bounds,
        &side_bound.side,
        &farthest(&low, &high),
    )
}

/// The cylinder that holds what is held on an interval, no further to either side, and at each band.
fn cylinder_about(
    interval: &SweepInterval,
    bounds: &CylinderBounds,
    side_bound: &SideBound,
    bands: [Band; BANDS],
) -> BoundingCylinder
    ensures { (p : List ℤ) → IsHeldPlace bounds.now interval.now p → IsBesidePlace side_bound.now interval.now p
        → AreBandsOf bands side_bound.now.side interval.now p → IsInCylinder result p }
{
    BoundingCylinder {
        scale: interval.scale,
        tip: narrow(&interval.tip),
        axis: narrow(&interval.axis),
        least: short(bounds.least),
        most: short(bounds.most),
        moment: short(bounds.moment),
        side: narrow(&side_bound.side),
        across: short(side_bound.across),
        bands,
    }
}

/// The cylinder that holds each point of a region that is possible by a move of a cutter, with the cells of any depth. It is wider than
/// the cutter by half of the tip's path, so it excludes most points for a short move.
pub fn cylinder_of(sweep: &Sweep, stacks: &Stacks, region: &PointBox) -> BoundingCylinder
    requires low { IsWithin place_limit region.now.low }
    requires high { IsWithin place_limit region.now.high }
    ensures { (p : List ℤ) (depth : ℕ) → IsInBox region.now p
        → is_possible_by stacks.now.cutter stacks.now.slabs sweep.now p (2 ^ depth) ≡ true → IsInCylinder result p }
{
    let size = size_of(stacks.outer());
    let near = clip_to_reach(&sweep.from, &sweep.to, stacks.reach(), region);
    let interval = interval_of(sweep, 0, 0);
    let closer = narrowed(&interval, size.widest, size.highest, size.lowest, &near);
    let bounds = bounds_in(&interval, &size, &closer);
    let side_bound = side_bound_in(&interval, &size, &closer);
    let bands = bands_in(&interval, stacks.outer(), &bounds, &side_bound, &closer);
    cylinder_about(&interval, &bounds, &side_bound, bands)
}
