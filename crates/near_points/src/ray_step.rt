ghost use Rattle.std.specs.Prelude.{◌≡◌, ◌≤◌, ◌*◌, ◌+ℤ◌, ◌*ℤ◌, pos, unsigned_abs};
ghost use Rattle.near_points.specs.Limits.{moment_limit, tilt_limit};

use crate::axis_offset::{AxisOffset, moved, tilted, wide_product};

/// What a step along a ray adds to the axis offset of a point. To the component of the moment along the ray it adds nothing. `curve` is the
/// square of what it adds to the moment.
#[derive(Drop)]
pub struct RayStep {
    pub second: i64,
    pub third: i64,
    pub side: i64,
    pub height: i64,
    pub curve: i128,
    ghost second_small: { unsigned_abs second ≤ moment_limit },
    ghost third_small: { unsigned_abs third ≤ moment_limit },
    ghost side_small: { unsigned_abs side ≤ tilt_limit },
    ghost height_small: { unsigned_abs height ≤ moment_limit },
    ghost curve_small: { unsigned_abs curve ≤ 2 * (moment_limit * moment_limit) },
    ghost curve_is: { curve ≡ second *ℤ second +ℤ third *ℤ third },
}

impl RayStep {
    ghost use Rattle.near_points.specs.AxisOffsets.{IsRayStepOf};
    ghost use Rattle.near_points.specs.Lines.{FitsAfter, IsAfter, slope_of};

    /// By the axis offset of the way of the step.
    pub fn of_axis_offset(way: &AxisOffset) -> RayStep
        ensures { IsRayStepOf result way.now }
    {
        let second = wide_product(way.second, way.second);
        let third = wide_product(way.third, way.third);
        RayStep {
            second: way.second,
            third: way.third,
            side: way.side,
            height: way.height,
            curve: second + third,
        }
    }

    /// The axis offset of the point l steps on from the first.
    #[inline]
    pub fn after(&self, first: &AxisOffset, l: u32) -> AxisOffset
        requires { FitsAfter first.now self.now (pos l) }
        ensures { IsAfter result first.now self.now (pos l) }
    {
        AxisOffset {
            along: first.along,
            second: moved(first.second, l, self.second),
            third: moved(first.third, l, self.third),
            side: tilted(first.side, l, self.side),
            height: moved(first.height, l, self.height),
        }
    }

    /// The slope of the square of the moment at a point, for a step.
    #[inline]
    pub fn slope(&self, from: &AxisOffset) -> i128
        ensures value { result ≡ slope_of from.now self.now }
        ensures small { unsigned_abs result ≤ 4 * (moment_limit * moment_limit) }
    {
        let second = wide_product(from.second, self.second);
        let third = wide_product(from.third, self.third);
        2 * (second + third)
    }
}
