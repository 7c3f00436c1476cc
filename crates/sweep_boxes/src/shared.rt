ghost use Rattle.std.specs.Prelude.{◌≡◌, ◌*◌, ◌≤◌, ◌^◌, ◌-ℤ◌, ◌≤ℤ◌, pos, unsigned_abs};
ghost use Rattle.std.specs.Option.{IfSome};
ghost use Rattle.space.specs.Ranges.{IsWithin, vector_limit};
ghost use Rattle.space.specs.Vectors.{difference, dot, sum};
ghost use Rattle.sweep_boxes.specs.BandTerms.{AreBandTermsOf, IsSideSlack};
ghost use Rattle.sweep_boxes.specs.Limits.{side_component_limit};

use crate::band_terms::BandTerms;
use crate::bounds::{distance, height_slack_of};
use crate::change::{change_limit, length_limit};
use crate::offsets::sizes;
use crate::spread::{reach_of, short_square, sum, third_of_square, tilt};
use crate::sweep_interval::SweepInterval;
use space::{cross, dot, root_down, root_up};

/// The lesser of two squares.
#[inline]
fn lesser(a: i128, b: i128) -> i128
    requires { unsigned_abs a ≤ 10 ^ 18 }
    ensures first { result ≤ℤ a }
    ensures second { result ≤ℤ b }
    ensures small { result ≤ℤ pos (10 ^ 18) }
{
    if a < b { a } else { b }
}

/// At most the square of twice the axis at either end of an interval, and four times the product of both.
pub fn least_square(interval: &SweepInterval) -> i128
    ensures first { let at = interval.now in result ≤ℤ dot (difference at.axis at.axis_change) (difference at.axis at.axis_change) }
    ensures middle { let at = interval.now in result ≤ℤ (dot at.axis at.axis -ℤ dot at.axis_change at.axis_change) }
    ensures last { let at = interval.now in result ≤ℤ dot (sum at.axis at.axis_change) (sum at.axis at.axis_change) }
    ensures small { result ≤ℤ pos (10 ^ 18) }
{
    let along = dot(&interval.axis, &interval.axis);
    let turned = dot(&interval.axis_change, &interval.axis_change);
    let swing = distance(dot(&interval.axis, &interval.axis_change));
    lesser(along - turned, along + turned - (swing + swing))
}

/// What the moment of a place changes by and is bent by along a side, on an interval.
pub fn side_slack_of(interval: &SweepInterval, side: &[i128; 3], far: &[i128; 3]) -> i128
    requires side { IsWithin side_component_limit side.now }
    requires far { IsWithin vector_limit far.now }
    ensures value { IsSideSlack result side.now interval.now far.now }
    ensures some { pos 0 ≤ℤ result }
    ensures small { unsigned_abs result ≤ 10 ^ 36 }
{
    let drift = cross(&interval.offset_change, &interval.axis);
    let bend = cross(&interval.offset_change, &interval.axis_change);
    let side_change = sum(
        distance(tilt(side, &drift)),
        reach_of(far, &cross(&interval.axis_change, side)),
    );
    sum(side_change, distance(tilt(side, &bend)))
}

/// What all bands of an interval share, if it excludes anything: the axis nearly keeps its length, and no number is too great.
pub fn band_terms_of(
    interval: &SweepInterval,
    side: &[i128; 3],
    far: &[i128; 3],
) -> Option<BandTerms>
    requires side { IsWithin side_component_limit side.now }
    requires far { IsWithin vector_limit far.now }
    ensures { IfSome result (λ l. AreBandTermsOf l interval.now side.now far.now) }
{
    let axis_change = sizes(&interval.axis_change);
    let change = change_limit(
        &cross(&interval.offset_change, &interval.axis),
        far,
        &axis_change,
    );
    let bent = length_limit(&cross(&interval.offset_change, &interval.axis_change));
    let spare = sum(change, sum(bent, bent));
    let least = least_square(interval);
    if least < 1 || 50_000_000_000_000_000 < spare {
        return None;
    }
    Some(BandTerms {
        height_slack: height_slack_of(interval, far),
        shortest: root_down(least),
        longest: root_up(interval.longest),
        change,
        bent,
        square: short_square(side),
        third: third_of_square(spare),
        side_slack: side_slack_of(interval, side, far),
    })
}
