ghost use Rattle.std.specs.Prelude.{◌≡◌, ◌*◌, ◌+◌, ◌<◌, ◌≤◌, ◌^◌, ◌*ℤ◌, ◌+ℤ◌, ◌-ℤ◌, ◌≤ℤ◌, ℕ, List, ℤ, pos, true, unsigned_abs};
ghost use Rattle.space.specs.Ranges.{IsWithin, vector_limit};
ghost use Rattle.space.specs.Sweeps.{SweepOf};
ghost use Rattle.space.specs.Vectors.{at, dot};
ghost use Rattle.bern_form.specs.Between.{is_unexcluded_between};
ghost use Rattle.bern_form.specs.Slab.{SlabSize};
ghost use Rattle.sweep_boxes.specs.Held.{IsGrown, IsHeightSlack};
ghost use Rattle.sweep_boxes.specs.Intervals.{AreAsLarge, AreFrom, IsAmong, IsHeldOn, IsNearer, middle_axis, middle_offset};
ghost use Rattle.sweep_boxes.specs.Limits.{place_limit};
ghost use Rattle.sweep_boxes.specs.Made.{IsSweepInterval};

use crate::change::{change_limit, length_limit};
use crate::cylinder_bounds::CylinderBounds;
use crate::offsets::{farthest, least_dot, most_dot, sizes};
use crate::rise::{floor_of, rise_above};
use crate::sweep_interval::SweepInterval;
use crate::weight::weighted;
use space::{cross, dot, root_up};

/// A length whose square is at least that of another one, taken times a scale, times the axis' square.
pub fn radius(scale: u32, length: i32, longest: i128) -> i128
    requires scale { scale ≤ 256 }
    requires length { unsigned_abs length ≤ place_limit }
    requires some { pos 0 ≤ℤ longest }
    requires few { longest ≤ℤ pos (3 * (vector_limit * vector_limit)) }
    ensures value { (((pos scale *ℤ length) *ℤ (pos scale *ℤ length)) *ℤ longest) ≤ℤ (result *ℤ result) }
    ensures some { pos 0 ≤ℤ result }
    ensures small { unsigned_abs result ≤ 10 ^ 18 }
{
    let scaled = weighted(scale, length);
    root_up(scaled * scaled * longest)
}

/// How far a number is from zero.
#[inline]
pub fn distance(z: i128) -> i128
    requires { unsigned_abs z ≤ 48 * (vector_limit * vector_limit) }
    ensures { result ≡ pos (unsigned_abs z) }
{
    if z < 0 { -z } else { z }
}

/// The sum of three lengths.
#[inline]
fn total(a: i128, b: i128, c: i128) -> i128
    requires a { unsigned_abs a ≤ 10 ^ 18 }
    requires b { unsigned_abs b ≤ 10 ^ 18 }
    requires c { unsigned_abs c ≤ 10 ^ 18 }
    ensures value { result ≡ a +ℤ (b +ℤ c) }
    ensures small { unsigned_abs result ≤ 3 * 10 ^ 18 }
{
    a + (b + c)
}

/// What the height of an offset that is no further than `far` changes by on an interval.
pub fn height_slack_of(interval: &SweepInterval, far: &[i128; 3]) -> i128
    requires far { IsWithin vector_limit far.now }
    ensures value { IsHeightSlack result interval.now far.now }
    ensures small { unsigned_abs result ≤ 3 * 10 ^ 18 }
{
    let axis_change = sizes(&interval.axis_change);
    let drift = distance(dot(&interval.offset_change, &interval.axis));
    let swing = distance(dot(far, &axis_change));
    let bend = distance(dot(&interval.offset_change, &interval.axis_change));
    total(drift, swing, bend)
}

/// How far from the axis a place is outside of slabs of at most this width.
fn grown(interval: &SweepInterval, widest: i32, far: &[i128; 3]) -> i128
    requires widest { unsigned_abs widest ≤ place_limit }
    requires far { IsWithin vector_limit far.now }
    ensures value { IsGrown result interval.now widest far.now }
    ensures small { unsigned_abs result ≤ 3 * 10 ^ 18 }
{
    let axis_change = sizes(&interval.axis_change);
    let drift = cross(&interval.offset_change, &interval.axis);
    let bend = cross(&interval.offset_change, &interval.axis_change);
    let half = radius(interval.scale, widest, interval.longest);
    total(
        half,
        change_limit(&drift, far, &axis_change),
        length_limit(&bend),
    )
}

/// The greater of two numbers.
#[inline]
fn greater(a: i128, b: i128) -> i128
    requires a { unsigned_abs a ≤ 4 * 10 ^ 18 }
    requires b { unsigned_abs b ≤ 4 * 10 ^ 18 }
    ensures value { (z : ℤ) → a ≤ℤ z → b ≤ℤ z → result ≤ℤ z }
    ensures small { unsigned_abs result ≤ 4 * 10 ^ 18 }
{
    if a < b { b } else { a }
}

/// The lesser of two numbers.
#[inline]
fn lesser(a: i128, b: i128) -> i128
    requires a { unsigned_abs a ≤ 4 * 10 ^ 18 }
    requires b { unsigned_abs b ≤ 4 * 10 ^ 18 }
    ensures value { (z : ℤ) → z ≤ℤ a → z ≤ℤ b → z ≤ℤ result }
    ensures small { unsigned_abs result ≤ 4 * 10 ^ 18 }
{
    if a < b { a } else { b }
}

/// At most the height of each place that is left, if no lower than the floor.
fn least_of(axis: &[i128; 3], low: &[i128; 3], high: &[i128; 3], floor: i128) -> i128
    requires axis { IsWithin vector_limit axis.now }
    requires low { IsWithin vector_limit low.now }
    requires high { IsWithin vector_limit high.now }
    requires floor { unsigned_abs floor ≤ 4 * 10 ^ 18 }
    ensures value { (v : List ℤ) → IsAmong low.now high.now v
        → floor ≤ℤ dot v axis.now → result ≤ℤ dot v axis.now }
    ensures small { unsigned_abs result ≤ 4 * 10 ^ 18 }
{
    greater(least_dot(axis, low, high), floor)
}

/// At least the height of each place that is left, if no higher than the top with the height slack.
fn most_of(
    axis: &[i128; 3],
    low: &[i128; 3],
    high: &[i128; 3],
    top: i128,
    height_slack: i128,
) -> i128
    requires axis { IsWithin vector_limit axis.now }
    requires low { IsWithin vector_limit low.now }
    requires high { IsWithin vector_limit high.now }
    requires top { unsigned_abs top ≤ 10 ^ 18 }
    requires height_slack { unsigned_abs height_slack ≤ 3 * 10 ^ 18 }
    ensures value { (v : List ℤ) → IsAmong low.now high.now v
        → dot v axis.now ≤ℤ (top +ℤ height_slack) → dot v axis.now ≤ℤ result }
    ensures small { unsigned_abs result ≤ 4 * 10 ^ 18 }
{
    lesser(most_dot(axis, low, high), top + height_slack)
}

/// What holds the places that are left.
pub fn bounds_of(
    interval: &SweepInterval,
    widest: i32,
    highest: i32,
    lowest: i32,
    low: &[i128; 3],
    high: &[i128; 3],
) -> CylinderBounds
    requires widest { unsigned_abs widest ≤ place_limit }
    requires highest { unsigned_abs highest ≤ place_limit }
    requires lowest { unsigned_abs lowest ≤ place_limit }
    requires low { IsWithin vector_limit low.now }
    requires high { IsWithin vector_limit high.now }
    ensures { (m : SweepOf) (k S : ℕ) (slabs : List SlabSize) (p : List ℤ) → IsSweepInterval interval.now m k S
        → AreAsLarge widest highest slabs → AreFrom lowest slabs → IsAmong low.now high.now (middle_offset m p k S)
        → is_unexcluded_between slabs m p k (k + 1) S ≡ true
        → IsHeldOn result.least result.most result.moment (middle_offset m p k S) (middle_axis m k S) }
{
    let far = farthest(low, high);
    let height_slack = height_slack_of(interval, &far);
    let top = radius(2 * interval.scale, highest, interval.longest);
    CylinderBounds {
        least: least_of(
            &interval.axis,
            low,
            high,
            floor_of(rise_above(interval, lowest), height_slack),
        ),
        most: most_of(&interval.axis, low, high, top, height_slack),
        moment: grown(interval, widest, &far),
    }
}
