ghost use Rattle.std.specs.Prelude.{◌*◌, ◌≤◌, ◌<◌, unsigned_abs};
ghost use Rattle.space.specs.Ranges.{IsPoint, IsWithin, axis_unit, metre};
ghost use Rattle.space.specs.Vectors.{at};
ghost use Rattle.bern_form.specs.Sizes.{scale_limit};
ghost use Rattle.ray_runs.specs.Sizes.{moment_limit, short_limit};

use axis_cells::Sweep;

// A guess: which sample it is changes how long a run is found, and never whether it is one. So nothing is said of these numbers except
// that they fit.

/// The difference of two numbers of 32 bits.
#[inline]
fn difference(a: i32, b: i32) -> i64
    requires a { unsigned_abs a ≤ metre }
    requires b { unsigned_abs b ≤ metre }
    ensures { unsigned_abs result ≤ 2 * metre }
{
    i64::from(a) - i64::from(b)
}

/// The way from one place to another.
#[inline]
fn way(from: &[i32; 3], to: &[i32; 3]) -> [i64; 3]
    requires from { IsPoint from.now }
    requires to { IsPoint to.now }
    ensures { IsWithin (2 * metre) result }
{
    [
        difference(to[0], from[0]),
        difference(to[1], from[1]),
        difference(to[2], from[2]),
    ]
}

/// The sum of two components of an axis.
#[inline]
fn sum(a: i32, b: i32) -> i64
    requires a { unsigned_abs a ≤ axis_unit }
    requires b { unsigned_abs b ≤ axis_unit }
    ensures { unsigned_abs result ≤ 2 * axis_unit }
{
    i64::from(a) + i64::from(b)
}

/// Twice the mean of the axes at both ends of a move.
#[inline]
fn mean_axis(sweep: &Sweep) -> [i64; 3]
    ensures { IsWithin (2 * axis_unit) result }
{
    let from = &sweep.axis_from;
    let to = &sweep.axis_to;
    [
        sum(from[0], to[0]),
        sum(from[1], to[1]),
        sum(from[2], to[2]),
    ]
}

/// A product of a length and a component of an axis.
#[inline]
fn product(length: i64, part: i64) -> i64
    requires length { unsigned_abs length ≤ 2 * metre }
    requires part { unsigned_abs part ≤ 2 * axis_unit }
    ensures { unsigned_abs result ≤ (2 * metre) * (2 * axis_unit) }
{
    length * part
}

/// A component of the cross product of a way and an axis.
#[inline]
fn minor(v: i64, w: i64, a: i64, b: i64) -> i64
    requires v { unsigned_abs v ≤ 2 * metre }
    requires w { unsigned_abs w ≤ 2 * metre }
    requires a { unsigned_abs a ≤ 2 * axis_unit }
    requires b { unsigned_abs b ≤ 2 * axis_unit }
    ensures { unsigned_abs result ≤ moment_limit }
{
    product(v, b) - product(w, a)
}

/// The cross product of a way and an axis: as long as the way is across the axis, times the axis.
#[inline]
fn across(v: &[i64; 3], a: &[i64; 3]) -> [i64; 3]
    requires v { IsWithin (2 * metre) v.now }
    requires a { IsWithin (2 * axis_unit) a.now }
    ensures { IsWithin moment_limit result }
{
    [
        minor(v[1], v[2], a[1], a[2]),
        minor(v[2], v[0], a[2], a[0]),
        minor(v[0], v[1], a[0], a[1]),
    ]
}

/// The product of two components.
#[inline]
fn square(a: i64, b: i64) -> i128
    requires a { unsigned_abs a ≤ moment_limit }
    requires b { unsigned_abs b ≤ moment_limit }
    ensures { unsigned_abs result ≤ moment_limit * moment_limit }
{
    i128::from(a) * i128::from(b)
}

/// The scalar product of two cross products.
#[inline]
fn along(a: &[i64; 3], b: &[i64; 3]) -> i128
    requires a { IsWithin moment_limit a.now }
    requires b { IsWithin moment_limit b.now }
    ensures { unsigned_abs result ≤ 3 * (moment_limit * moment_limit) }
{
    square(a[0], b[0]) + square(a[1], b[1]) + square(a[2], b[2])
}

/// A scalar product without its last 32 bits, so that it is divided in 64. That costs the guess little: for a way of a hundredth of a
/// millimetre about a thousandth.
#[inline]
fn shortened(product: i128) -> u64
    requires { unsigned_abs product ≤ 3 * (moment_limit * moment_limit) }
    ensures { result ≤ short_limit }
{
    (product.unsigned_abs() / (1 << 32)) as u64
}

/// The part of a whole that is nearest to a fraction of it, from none to all.
fn part_of(scale: u32, part: i128, whole: i128) -> u32
    requires scale { scale ≤ scale_limit }
    requires part { unsigned_abs part ≤ 3 * (moment_limit * moment_limit) }
    requires whole { unsigned_abs whole ≤ 3 * (moment_limit * moment_limit) }
    ensures { result ≤ scale }
{
    if part <= 0 {
        return 0;
    }
    if whole <= part {
        return scale;
    }
    let scaled = shortened(part) * u64::from(scale);
    (scaled / shortened(whole).max(1)).min(u64::from(scale)) as u32
}

/// The sample at which a point is likely to be nearest to the axis, taken as the mean of the axes at both ends: there the way across
/// the axis has come as far as the point.
#[inline]
pub fn likely_sample(sweep: &Sweep, point: &[i32; 3], scale: u32) -> u32
    requires point { IsPoint point.now }
    requires scale { scale ≤ scale_limit }
    ensures { result ≤ scale }
{
    let axis = mean_axis(sweep);
    let whole = across(&way(&sweep.from, &sweep.to), &axis);
    let part = across(&way(&sweep.from, point), &axis);
    part_of(scale, along(&part, &whole), along(&whole, &whole))
}
