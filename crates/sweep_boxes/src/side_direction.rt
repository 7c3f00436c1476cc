ghost use Rattle.std.specs.Prelude.{◌*◌, ◌<◌, ◌≤◌, ◌^◌, unsigned_abs};
ghost use Rattle.space.specs.Ranges.{IsWithin, vector_limit};
ghost use Rattle.sweep_boxes.specs.Limits.{side_component_limit};

use crate::side::{height_along, quotient};
use crate::sweep_interval::SweepInterval;
use space::dot;

/// What of a component of the offset change is across the axis, times the square of the axis.
#[inline]
fn across_along(interval: &SweepInterval, square: i128, along: i128, i: usize) -> i128
    requires i { i < 3 }
    requires square { unsigned_abs square ≤ 3 * (vector_limit * vector_limit) }
    requires along { unsigned_abs along ≤ 3 * (vector_limit * vector_limit) }
    ensures { unsigned_abs result ≤ 8 * 10 ^ 18 * vector_limit }
{
    height_along(square, interval.offset_change[i]) - height_along(along, interval.axis[i])
}

/// How far a number is from zero.
#[inline]
fn size(z: i128) -> i128
    requires { unsigned_abs z ≤ 8 * 10 ^ 18 * vector_limit }
    ensures { unsigned_abs result ≤ 8 * 10 ^ 18 * vector_limit }
{
    if z < 0 { -z } else { z }
}

/// The greater of two numbers.
#[inline]
fn greater(a: i128, b: i128) -> i128
    requires a { unsigned_abs a ≤ 8 * 10 ^ 18 * vector_limit }
    requires b { unsigned_abs b ≤ 8 * 10 ^ 18 * vector_limit }
    ensures { unsigned_abs result ≤ 8 * 10 ^ 18 * vector_limit }
{
    if a < b { b } else { a }
}

/// A number, no further from zero than the components of a side direction are.
#[inline]
fn held_back(z: i128) -> i128
    ensures { unsigned_abs result ≤ side_component_limit }
{
    if z < -8 {
        -8
    } else if 8 < z {
        8
    } else {
        z
    }
}

/// A component in eighths of the greatest one, rounded.
fn eighths(part: i128, most: i128) -> i128
    requires part { unsigned_abs part ≤ 8 * 10 ^ 18 * vector_limit }
    requires most { unsigned_abs most ≤ 8 * 10 ^ 18 * vector_limit }
    ensures { unsigned_abs result ≤ side_component_limit }
{
    if most < 1 {
        return 0;
    }
    let half = if part < 0 { -most } else { most };
    held_back(quotient(16 * part + half, 2 * most))
}

/// A short vector of whole numbers near to the direction in which an interval goes across its axis, or zero where it goes along it.
pub fn side_direction_of(interval: &SweepInterval) -> [i128; 3]
    ensures { IsWithin side_component_limit result }
{
    let square = dot(&interval.axis, &interval.axis);
    let along = dot(&interval.offset_change, &interval.axis);
    let x = across_along(interval, square, along, 0);
    let y = across_along(interval, square, along, 1);
    let z = across_along(interval, square, along, 2);
    let most = greater(size(x), greater(size(y), size(z)));
    [eighths(x, most), eighths(y, most), eighths(z, most)]
}
