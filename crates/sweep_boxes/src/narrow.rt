ghost use Rattle.std.specs.Prelude.{◌≡◌, ◌+◌, ◌*◌, ◌<◌, ◌≤◌, ◌≤ℤ◌, ℕ, List, ℤ, pos, true, unsigned_abs};
ghost use Rattle.space.specs.Ranges.{IsWithin, vector_limit};
ghost use Rattle.space.specs.Sweeps.{SweepOf};
ghost use Rattle.space.specs.Vectors.{at, dot};
ghost use Rattle.bern_form.specs.Between.{is_unexcluded_between};
ghost use Rattle.bern_form.specs.Slab.{SlabSize};
ghost use Rattle.sweep_boxes.specs.Boxes.{IsInBox};
ghost use Rattle.sweep_boxes.specs.Limits.{place_limit};
ghost use Rattle.sweep_boxes.specs.Made.{IsSweepInterval};
ghost use Rattle.sweep_boxes.specs.Lines.{IsHeldPlace};
ghost use Rattle.sweep_boxes.specs.Intervals.{AreAsLarge, AreFrom};

use crate::bounds::bounds_of;
use crate::cylinder_bounds::CylinderBounds;
use crate::line::Line;
use crate::offsets::offset_from;
use crate::point_box::PointBox;
use crate::side::ends;
use crate::sweep_interval::SweepInterval;
use space::dot;

/// The first and the last place of a box along one of the three axes of those that are held on an interval.
fn ends_along(
    interval: &SweepInterval,
    bounds: &CylinderBounds,
    square: i128,
    region: &PointBox,
    i: usize,
) -> (i32, i32)
    requires i { i < 3 }
    requires square { square ≡ dot interval.now.axis interval.now.axis }
    requires some { pos 1 ≤ℤ square }
    requires few { unsigned_abs square ≤ 3 * (vector_limit * vector_limit) }
    requires low { unsigned_abs (at region.now.low i) ≤ place_limit }
    requires high { unsigned_abs (at region.now.high i) ≤ place_limit }
    ensures first { (p : List ℤ) → IsHeldPlace bounds.now interval.now p
        → at region.now.low i ≤ℤ at p i → at p i ≤ℤ at region.now.high i → result.0 ≤ℤ at p i }
    ensures last { (p : List ℤ) → IsHeldPlace bounds.now interval.now p
        → at region.now.low i ≤ℤ at p i → at p i ≤ℤ at region.now.high i → at p i ≤ℤ result.1 }
    ensures low { at region.now.low i ≤ℤ result.0 }
    ensures high { result.1 ≤ℤ at region.now.high i }
    ensures low_small { unsigned_abs result.0 ≤ place_limit }
    ensures high_small { unsigned_abs result.1 ≤ place_limit }
{
    let line = Line {
        square,
        scale: interval.scale,
        axis: interval.axis[i],
        tip: interval.tip[i],
        low: region.low[i],
        high: region.high[i],
    };
    ends(&line, bounds)
}

/// The box of those points of a region that slabs of at most a width and a height, which begin at `lowest` or higher, may be left at on a
/// interval. Where the axes at both ends of the interval are opposite to each other it is the region.
pub fn narrowed(
    interval: &SweepInterval,
    widest: i32,
    highest: i32,
    lowest: i32,
    region: &PointBox,
) -> PointBox
    requires widest { unsigned_abs widest ≤ place_limit }
    requires highest { unsigned_abs highest ≤ place_limit }
    requires lowest { unsigned_abs lowest ≤ place_limit }
    requires low { IsWithin place_limit region.now.low }
    requires high { IsWithin place_limit region.now.high }
    ensures kept { (m : SweepOf) (k S : ℕ) (slabs : List SlabSize) (p : List ℤ) → IsSweepInterval interval.now m k S
        → AreAsLarge widest highest slabs → AreFrom lowest slabs → IsInBox region.now p → is_unexcluded_between slabs m p k (k + 1) S ≡ true
        → IsInBox result p }
    ensures within { (p : List ℤ) → IsInBox result p → IsInBox region.now p }
    ensures low { IsWithin place_limit result.low }
    ensures high { IsWithin place_limit result.high }
{
    let square = dot(&interval.axis, &interval.axis);
    if square < 1 {
        return *region;
    }
    let low = offset_from(interval.scale, &interval.tip, &region.low);
    let high = offset_from(interval.scale, &interval.tip, &region.high);
    let bounds = bounds_of(interval, widest, highest, lowest, &low, &high);
    let (x0, x1) = ends_along(interval, &bounds, square, region, 0);
    let (y0, y1) = ends_along(interval, &bounds, square, region, 1);
    let (z0, z1) = ends_along(interval, &bounds, square, region, 2);
    PointBox {
        low: [x0, y0, z0],
        high: [x1, y1, z1],
    }
}
