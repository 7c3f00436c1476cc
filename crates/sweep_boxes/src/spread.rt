ghost use Rattle.std.specs.Prelude.{◌≡◌, ◌*◌, ◌+◌, ◌<◌, ◌≤◌, ◌^◌, ◌*ℤ◌, ◌+ℤ◌, ◌≤ℤ◌, ℕ, List, ℤ, pos, true, unsigned_abs};
ghost use Rattle.space.specs.Ranges.{IsWithin, vector_limit};
ghost use Rattle.space.specs.Sweeps.{SweepOf};
ghost use Rattle.space.specs.Vectors.{at, dot};
ghost use Rattle.bern_form.specs.Between.{is_unexcluded_between};
ghost use Rattle.bern_form.specs.Slab.{SlabSize};
ghost use Rattle.sweep_boxes.specs.Held.{IsSpread};
ghost use Rattle.sweep_boxes.specs.Intervals.{AreAsLarge, IsAmong, IsBeside, IsNearer, middle_axis, middle_offset};
ghost use Rattle.sweep_boxes.specs.Limits.{place_limit, side_component_limit};
ghost use Rattle.sweep_boxes.specs.Made.{IsSweepInterval};

use crate::bounds::radius;
use crate::change::{change_limit, length_along, length_limit};
use crate::offsets::{farthest, sizes};
use crate::shared::side_slack_of;
use crate::side::quotient;
use crate::side_bound::SideBound;
use crate::side_direction::side_direction_of;
use crate::sweep_interval::SweepInterval;
use space::{cross, root_up};

/// The product of a component of a short vector and one of another.
#[inline]
fn share(side: &[i128; 3], v: &[i128; 3], i: usize) -> i128
    requires i { i < 3 }
    requires side { unsigned_abs (at side.now i) ≤ side_component_limit }
    requires v { unsigned_abs (at v.now i) ≤ 2 * (vector_limit * vector_limit) }
    ensures value { result ≡ at side.now i *ℤ at v.now i }
    ensures small { unsigned_abs result ≤ side_component_limit * (2 * (vector_limit * vector_limit)) }
{
    side[i] * v[i]
}

/// The scalar product of a short vector and another.
pub fn tilt(side: &[i128; 3], v: &[i128; 3]) -> i128
    requires side { IsWithin side_component_limit side.now }
    requires v { IsWithin (2 * (vector_limit * vector_limit)) v.now }
    ensures value { result ≡ dot side.now v.now }
    ensures small { unsigned_abs result ≤ 48 * (vector_limit * vector_limit) }
{
    share(side, v, 0) + share(side, v, 1) + share(side, v, 2)
}

/// How far from zero components of two vectors are, multiplied.
#[inline]
fn reach_along(far: &[i128; 3], v: &[i128; 3], i: usize) -> i128
    requires i { i < 3 }
    requires far { unsigned_abs (at far.now i) ≤ vector_limit }
    requires v { unsigned_abs (at v.now i) ≤ 2 * (vector_limit * vector_limit) }
    ensures value { result ≡ pos (unsigned_abs (at far.now i) * unsigned_abs (at v.now i)) }
    ensures small { unsigned_abs result ≤ vector_limit * (2 * (vector_limit * vector_limit)) }
{
    length_along(far, i) * length_along(v, i)
}

/// At least how far from zero the scalar product of a vector and one that is no further than `far` is.
pub fn reach_of(far: &[i128; 3], v: &[i128; 3]) -> i128
    requires far { IsWithin vector_limit far.now }
    requires v { IsWithin (2 * (vector_limit * vector_limit)) v.now }
    ensures value { (p : List ℤ) → IsNearer p far.now → pos (unsigned_abs (dot p v.now)) ≤ℤ result }
    ensures some { pos 0 ≤ℤ result }
    ensures small { unsigned_abs result ≤ 3 * (vector_limit * (2 * (vector_limit * vector_limit))) }
{
    reach_along(far, v, 0) + reach_along(far, v, 1) + reach_along(far, v, 2)
}

/// The square of a length.
#[inline]
pub fn length_square(length: i128) -> i128
    requires { unsigned_abs length ≤ 5 * 10 ^ 16 }
    ensures value { result ≡ length *ℤ length }
    ensures some { pos 0 ≤ℤ result }
    ensures small { unsigned_abs result ≤ 25 * 10 ^ 32 }
{
    length * length
}

/// A third of the square of a length, rounded up.
pub fn third_of_square(length: i128) -> i128
    requires { unsigned_abs length ≤ 5 * 10 ^ 16 }
    ensures value { (length *ℤ length) ≤ℤ (pos 3 *ℤ result) }
    ensures some { pos 0 ≤ℤ result }
    ensures small { unsigned_abs result ≤ 10 ^ 33 }
{
    quotient(length_square(length), 3) + 1
}

/// The square of a component of a short vector.
#[inline]
fn part_square(side: &[i128; 3], i: usize) -> i128
    requires i { i < 3 }
    requires side { unsigned_abs (at side.now i) ≤ side_component_limit }
    ensures value { result ≡ at side.now i *ℤ at side.now i }
    ensures some { pos 0 ≤ℤ result }
    ensures small { unsigned_abs result ≤ 64 }
{
    side[i] * side[i]
}

/// The square of a short vector.
pub fn short_square(side: &[i128; 3]) -> i128
    requires { IsWithin side_component_limit side.now }
    ensures value { result ≡ dot side.now side.now }
    ensures some { pos 0 ≤ℤ result }
    ensures small { unsigned_abs result ≤ 192 }
{
    part_square(side, 0) + part_square(side, 1) + part_square(side, 2)
}

/// The root of a product, rounded up.
pub fn root_of_product(square: i128, wide: i128) -> i128
    requires square_some { pos 0 ≤ℤ square }
    requires square { unsigned_abs square ≤ 192 }
    requires wide_some { pos 0 ≤ℤ wide }
    requires wide { unsigned_abs wide ≤ 35 * 10 ^ 32 }
    ensures value { (square *ℤ wide) ≤ℤ (result *ℤ result) }
    ensures some { pos 0 ≤ℤ result }
    ensures small { unsigned_abs result ≤ 10 ^ 18 }
{
    root_up(square * wide)
}

/// The sum of two numbers.
#[inline]
pub fn sum(a: i128, b: i128) -> i128
    requires a { unsigned_abs a ≤ 10 ^ 37 }
    requires b { unsigned_abs b ≤ 10 ^ 37 }
    ensures value { result ≡ a +ℤ b }
    ensures small { unsigned_abs result ≤ unsigned_abs a + unsigned_abs b }
{
    a + b
}

/// More than any breadth.
const TOO_WIDE: i128 = 10_000_000_000_000_000_000;

/// How far along a side with this square slabs of a half width reach, with a third of the square of what the moment is off by.
pub fn reach_across(square: i128, half: i128, third: i128) -> i128
    requires square_some { pos 0 ≤ℤ square }
    requires square { unsigned_abs square ≤ 192 }
    requires half { unsigned_abs half ≤ 5 * 10 ^ 16 }
    requires third_some { pos 0 ≤ℤ third }
    requires third { unsigned_abs third ≤ 10 ^ 33 }
    ensures value { (square *ℤ (half *ℤ half +ℤ third)) ≤ℤ (result *ℤ result) }
    ensures some { pos 0 ≤ℤ result }
    ensures small { unsigned_abs result ≤ 10 ^ 18 }
{
    root_of_product(square, sum(length_square(half), third))
}

/// How far along a side the moment of a place is outside of slabs of at most this width. Lengths that are too great for the root
/// give a number above all that a breadth can have.
fn spread_of(interval: &SweepInterval, side: &[i128; 3], widest: i32, far: &[i128; 3]) -> i128
    requires side { IsWithin side_component_limit side.now }
    requires widest { unsigned_abs widest ≤ place_limit }
    requires far { IsWithin vector_limit far.now }
    ensures value { result ≤ℤ pos (4 * 10 ^ 18) → IsSpread result side.now interval.now widest far.now }
    ensures some { pos 0 ≤ℤ result }
{
    let axis_change = sizes(&interval.axis_change);
    let change = change_limit(
        &cross(&interval.offset_change, &interval.axis),
        far,
        &axis_change,
    );
    let bent = length_limit(&cross(&interval.offset_change, &interval.axis_change));
    let half = radius(interval.scale, widest, interval.longest);
    let spare = sum(change, sum(bent, bent));
    if 50_000_000_000_000_000 < half || 50_000_000_000_000_000 < spare {
        return TOO_WIDE;
    }
    let reach = reach_across(short_square(side), half, third_of_square(spare));
    sum(reach, side_slack_of(interval, side, far))
}

/// How far to either side the places that are left are.
pub fn side_bound_of(
    interval: &SweepInterval,
    widest: i32,
    low: &[i128; 3],
    high: &[i128; 3],
) -> SideBound
    requires widest { unsigned_abs widest ≤ place_limit }
    requires low { IsWithin vector_limit low.now }
    requires high { IsWithin vector_limit high.now }
    ensures { (m : SweepOf) (k S : ℕ) (slabs : List SlabSize) (p : List ℤ) (highest : ℤ) → IsSweepInterval interval.now m k S
        → AreAsLarge widest highest slabs → IsAmong low.now high.now (middle_offset m p k S)
        → is_unexcluded_between slabs m p k (k + 1) S ≡ true
        → IsBeside result.side result.across (middle_offset m p k S) (middle_axis m k S) }
{
    let far = farthest(low, high);
    let side = side_direction_of(interval);
    let across = spread_of(interval, &side, widest, &far);
    if 4_000_000_000_000_000_000 < across {
        return SideBound {
            side: [0, 0, 0],
            across: 0,
        };
    }
    SideBound { side, across }
}
