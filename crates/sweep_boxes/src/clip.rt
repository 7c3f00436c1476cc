ghost use Rattle.std.specs.Prelude.{◌≡◌, ◌*◌, ◌≤◌, ◌<◌, ◌≤ℤ◌, ◌+ℤ◌, ◌-ℤ◌, List, ℤ, pos, true, unsigned_abs};
ghost use Rattle.space.specs.Ranges.{IsWithin};
ghost use Rattle.space.specs.Reach.{is_in_reach, is_near};
ghost use Rattle.space.specs.Vectors.{at};
ghost use Rattle.sweep_boxes.specs.Boxes.{IsInBox};
ghost use Rattle.sweep_boxes.specs.Limits.{place_limit};

use crate::point_box::PointBox;

/// A number that is no greater than two others.
#[inline]
fn lesser(a: i32, b: i32) -> i32
    requires a { unsigned_abs a ≤ 1000000 }
    requires b { unsigned_abs b ≤ 1000000 }
    ensures first { result ≤ℤ a }
    ensures second { result ≤ℤ b }
    ensures small { unsigned_abs result ≤ 1000000 }
{
    if a < b { a } else { b }
}

/// A number that is no less than two others.
#[inline]
fn greater(a: i32, b: i32) -> i32
    requires a { unsigned_abs a ≤ 1000000 }
    requires b { unsigned_abs b ≤ 1000000 }
    ensures first { a ≤ℤ result }
    ensures second { b ≤ℤ result }
    ensures small { unsigned_abs result ≤ 1000000 }
{
    if a < b { b } else { a }
}

/// The start of what a range has in reach of a place.
#[inline]
fn start_after(start: i32, first: i32, reach: i32) -> i32
    requires start { unsigned_abs start ≤ place_limit }
    requires first { unsigned_abs first ≤ 1000000 }
    requires reach { unsigned_abs reach ≤ 500000 }
    requires some { pos 0 ≤ℤ reach }
    ensures value { (z : ℤ) → start ≤ℤ z → (first -ℤ reach) ≤ℤ z → result ≤ℤ z }
    ensures least { start ≤ℤ result }
    ensures small { unsigned_abs result ≤ place_limit }
{
    if start < first - reach {
        first - reach
    } else {
        start
    }
}

/// The end of what a range has in reach of a place.
#[inline]
fn end_before(end: i32, last: i32, reach: i32) -> i32
    requires end { unsigned_abs end ≤ place_limit }
    requires last { unsigned_abs last ≤ 1000000 }
    requires reach { unsigned_abs reach ≤ 500000 }
    requires some { pos 0 ≤ℤ reach }
    ensures value { (z : ℤ) → z ≤ℤ end → z ≤ℤ (last +ℤ reach) → z ≤ℤ result }
    ensures most { result ≤ℤ end }
    ensures small { unsigned_abs result ≤ place_limit }
{
    if last + reach < end {
        last + reach
    } else {
        end
    }
}

/// The part of a range that is in reach of two ends along one of the three axes.
fn clip_along(region: &PointBox, from: &[i32; 3], to: &[i32; 3], reach: i32, i: usize) -> (i32, i32)
    requires i { i < 3 }
    requires low { unsigned_abs (at region.now.low i) ≤ place_limit }
    requires high { unsigned_abs (at region.now.high i) ≤ place_limit }
    requires from { unsigned_abs (at from.now i) ≤ 1000000 }
    requires to { unsigned_abs (at to.now i) ≤ 1000000 }
    requires reach { unsigned_abs reach ≤ 500000 }
    requires some { pos 0 ≤ℤ reach }
    ensures first { (z : ℤ) → at region.now.low i ≤ℤ z
        → is_near reach (at from.now i) (at to.now i) z ≡ true → result.0 ≤ℤ z }
    ensures last { (z : ℤ) → z ≤ℤ at region.now.high i
        → is_near reach (at from.now i) (at to.now i) z ≡ true → z ≤ℤ result.1 }
    ensures least { at region.now.low i ≤ℤ result.0 }
    ensures most { result.1 ≤ℤ at region.now.high i }
    ensures low_small { unsigned_abs result.0 ≤ place_limit }
    ensures high_small { unsigned_abs result.1 ≤ place_limit }
{
    let first = lesser(from[i], to[i]);
    let last = greater(from[i], to[i]);
    (
        start_after(region.low[i], first, reach),
        end_before(region.high[i], last, reach),
    )
}

/// The part of a region that is in reach of two ends.
pub fn clip_to_reach(from: &[i32; 3], to: &[i32; 3], reach: i32, region: &PointBox) -> PointBox
    requires from { IsWithin 1000000 from.now }
    requires to { IsWithin 1000000 to.now }
    requires reach { unsigned_abs reach ≤ 500000 }
    requires some { pos 0 ≤ℤ reach }
    requires low { IsWithin place_limit region.now.low }
    requires high { IsWithin place_limit region.now.high }
    ensures value { (p : List ℤ) → IsInBox region.now p → is_in_reach reach from.now to.now p ≡ true → IsInBox result p }
    ensures within { (p : List ℤ) → IsInBox result p → IsInBox region.now p }
    ensures low { IsWithin place_limit result.low }
    ensures high { IsWithin place_limit result.high }
{
    let (x0, x1) = clip_along(region, from, to, reach, 0);
    let (y0, y1) = clip_along(region, from, to, reach, 1);
    let (z0, z1) = clip_along(region, from, to, reach, 2);
    PointBox {
        low: [x0, y0, z0],
        high: [x1, y1, z1],
    }
}
