ghost use Rattle.std.specs.Prelude.{◌≡◌, ◌*◌, ◌+◌, ◌<◌, ◌≤◌, ◌^◌, ◌*ℤ◌, ◌+ℤ◌, ◌-ℤ◌, ◌≤ℤ◌, ℕ, List, ℤ, pos, neg_ℤ, unsigned_abs};
ghost use Rattle.space.specs.Ranges.{IsWithin, vector_limit};
ghost use Rattle.space.specs.Vectors.{at};
ghost use Rattle.sweep_boxes.specs.Limits.{place_limit};
ghost use Rattle.sweep_boxes.specs.Lines.{IsOnLine};

use crate::cylinder_bounds::CylinderBounds;
use crate::line::Line;
use space::root_up;

/// At least the length of an axis without its component along one of the three axes, by its square.
fn aside(square: i128, a: i128) -> i128
    requires a { unsigned_abs a ≤ vector_limit }
    requires square { unsigned_abs square ≤ 3 * (vector_limit * vector_limit) }
    requires part { (a *ℤ a) ≤ℤ square }
    ensures value { (square -ℤ a *ℤ a) ≤ℤ (result *ℤ result) }
    ensures some { pos 0 ≤ℤ result }
    ensures small { unsigned_abs result ≤ 10 ^ 18 }
{
    root_up(square - height_along(a, a))
}

/// A height times a component of the axis.
#[inline]
pub fn height_along(height: i128, a: i128) -> i128
    requires a { unsigned_abs a ≤ vector_limit }
    requires height { unsigned_abs height ≤ 4 * 10 ^ 18 }
    ensures value { result ≡ height *ℤ a }
    ensures small { unsigned_abs result ≤ 4 * 10 ^ 18 * vector_limit }
{
    height * a
}

/// A distance from the axis times what of the axis is not along one of the three axes.
#[inline]
fn margin(aside: i128, moment: i128) -> i128
    requires aside { unsigned_abs aside ≤ 10 ^ 18 }
    requires moment { unsigned_abs moment ≤ 3 * 10 ^ 18 }
    ensures value { result ≡ aside *ℤ moment }
    ensures small { unsigned_abs result ≤ 3 * 10 ^ 36 }
{
    aside * moment
}

/// At most each product of a component of the axis with a height between two.
fn least_along(least: i128, most: i128, a: i128) -> i128
    requires a { unsigned_abs a ≤ vector_limit }
    requires least { unsigned_abs least ≤ 4 * 10 ^ 18 }
    requires most { unsigned_abs most ≤ 4 * 10 ^ 18 }
    ensures value { (u : ℤ) → least ≤ℤ u → u ≤ℤ most → result ≤ℤ (u *ℤ a) }
    ensures small { unsigned_abs result ≤ 4 * 10 ^ 18 * vector_limit }
{
    if a < 0 {
        height_along(most, a)
    } else {
        height_along(least, a)
    }
}

/// At least each product of a component of the axis with a height between two.
fn most_along(least: i128, most: i128, a: i128) -> i128
    requires a { unsigned_abs a ≤ vector_limit }
    requires least { unsigned_abs least ≤ 4 * 10 ^ 18 }
    requires most { unsigned_abs most ≤ 4 * 10 ^ 18 }
    ensures value { (u : ℤ) → least ≤ℤ u → u ≤ℤ most → (u *ℤ a) ≤ℤ result }
    ensures small { unsigned_abs result ≤ 4 * 10 ^ 18 * vector_limit }
{
    if a < 0 {
        height_along(least, a)
    } else {
        height_along(most, a)
    }
}

/// A quotient, rounded towards zero: it is at least each number whose product with the divisor is at most the dividend, and at most
/// each whose product is at least that.
pub fn quotient(dividend: i128, divisor: i128) -> i128
    requires divisor { pos 1 ≤ℤ divisor }
    ensures last { (p : ℤ) → (p *ℤ divisor) ≤ℤ dividend → p ≤ℤ result }
    ensures first { (p : ℤ) → dividend ≤ℤ (p *ℤ divisor) → result ≤ℤ p }
{
    dividend / divisor
}

/// What a bound of an offset times a square is for a place: with that of the tip, which the offset is from.
#[inline]
fn from_tip(bound: i128, tip: i128, square: i128) -> i128
    requires bound { unsigned_abs bound ≤ 4 * 10 ^ 36 }
    requires square { unsigned_abs square ≤ 3 * (vector_limit * vector_limit) }
    requires tip { unsigned_abs tip ≤ 128 * place_limit }
    ensures { result ≡ bound +ℤ tip *ℤ square }
{
    bound + tip * square
}

/// A square times the scale.
#[inline]
fn scaled(scale: u32, square: i128) -> i128
    requires scale { 1 ≤ scale }
    requires few { scale ≤ 128 }
    requires some { pos 1 ≤ℤ square }
    requires square { unsigned_abs square ≤ 3 * (vector_limit * vector_limit) }
    ensures value { result ≡ pos scale *ℤ square }
    ensures some { pos 1 ≤ℤ result }
{
    i128::from(scale) * square
}

/// A place, where it is before the end of a range, and else that end.
#[inline]
fn last_place(place: i128, end: i32) -> i32
    requires high { unsigned_abs end ≤ place_limit }
    ensures value { (p : ℤ) → neg_ℤ (pos place_limit) ≤ℤ p → p ≤ℤ end → p ≤ℤ place → p ≤ℤ result }
    ensures most { result ≤ℤ end }
    ensures small { unsigned_abs result ≤ place_limit }
{
    if i128::from(end) < place {
        end
    } else if place < -1_000_001 {
        -1_000_001
    } else {
        place as i32
    }
}

/// A place, where it is after the start of a range, and else that start.
#[inline]
fn first_place(place: i128, start: i32) -> i32
    requires low { unsigned_abs start ≤ place_limit }
    ensures value { (p : ℤ) → start ≤ℤ p → p ≤ℤ pos place_limit → place ≤ℤ p → result ≤ℤ p }
    ensures least { start ≤ℤ result }
    ensures small { unsigned_abs result ≤ place_limit }
{
    if place < i128::from(start) {
        start
    } else if 1_000_001 < place {
        1_000_001
    } else {
        place as i32
    }
}

/// The first place on a line of those that are held.
fn first_end(line: &Line, bounds: &CylinderBounds, margin: i128) -> i32
    requires margin { unsigned_abs margin ≤ 3 * 10 ^ 36 }
    ensures value { (z u : ℤ) → line.now.low ≤ℤ z → z ≤ℤ line.now.high
        → bounds.now.least ≤ℤ u → u ≤ℤ bounds.now.most
        → (u *ℤ line.now.axis -ℤ margin) ≤ℤ ((pos line.now.scale *ℤ z -ℤ line.now.tip) *ℤ line.now.square) → result ≤ℤ z }
    ensures low { line.now.low ≤ℤ result }
    ensures small { unsigned_abs result ≤ place_limit }
{
    let bound = least_along(bounds.least, bounds.most, line.axis) - margin;
    let place = quotient(
        from_tip(bound, line.tip, line.square),
        scaled(line.scale, line.square),
    );
    first_place(place, line.low)
}

/// The last place on a line of those that are held.
fn last_end(line: &Line, bounds: &CylinderBounds, margin: i128) -> i32
    requires margin { unsigned_abs margin ≤ 3 * 10 ^ 36 }
    ensures value { (z u : ℤ) → line.now.low ≤ℤ z → z ≤ℤ line.now.high
        → bounds.now.least ≤ℤ u → u ≤ℤ bounds.now.most
        → ((pos line.now.scale *ℤ z -ℤ line.now.tip) *ℤ line.now.square) ≤ℤ (u *ℤ line.now.axis +ℤ margin) → z ≤ℤ result }
    ensures high { result ≤ℤ line.now.high }
    ensures small { unsigned_abs result ≤ place_limit }
{
    let bound = most_along(bounds.least, bounds.most, line.axis) + margin;
    let place = quotient(
        from_tip(bound, line.tip, line.square),
        scaled(line.scale, line.square),
    );
    last_place(place, line.high)
}

/// The places on a line of those that are held: the first and the last. A place z is held where for some height u the rest of its
/// offset, without its part along the axis, is at most the distance times what of the axis is not along the line.
pub fn ends(line: &Line, bounds: &CylinderBounds) -> (i32, i32)
    ensures first { (z u : ℤ) → IsOnLine line.now bounds.now z u → result.0 ≤ℤ z }
    ensures last { (z u : ℤ) → IsOnLine line.now bounds.now z u → z ≤ℤ result.1 }
    ensures low { line.now.low ≤ℤ result.0 }
    ensures high { result.1 ≤ℤ line.now.high }
    ensures low_small { unsigned_abs result.0 ≤ place_limit }
    ensures high_small { unsigned_abs result.1 ≤ place_limit }
{
    let margin = margin(aside(line.square, line.axis), bounds.moment);
    (
        first_end(line, bounds, margin),
        last_end(line, bounds, margin),
    )
}
