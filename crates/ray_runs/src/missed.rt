ghost use Rattle.std.specs.Prelude.{◌≡◌, ◌+◌, ◌<◌, ◌≤◌, IsTrue, ◌+ℤ◌, ◌*ℤ◌, ◌≤ℤ◌, ◌<ℤ◌, ◌*◌, ℕ, pos, unsigned_abs};
ghost use Rattle.space.specs.Ranges.{IsWithin};
ghost use Rattle.space.specs.Vectors.{at, dot};
ghost use Rattle.bern_form.specs.Cells.{dot_on_cell};
ghost use Rattle.bern_form.specs.Forms.{lifted};
ghost use Rattle.bern_form.specs.Sizes.{axis_limit, offset_limit};
ghost use Rattle.ray_runs.specs.Missed.{AreAbove, AreBehindAt, AreBeside, AreBesideAt, AreMissed, IsBehind};
ghost use Rattle.moment_forms.specs.Moments.{vector_product};
ghost use Rattle.moment_forms.specs.Sizes.{moments_limit, part_limit};

use crate::pair::Pair;
use moment_forms::{Moments, height, product, total};

/// Whether two points are behind the tip at a sample, by their offsets and the axis there.
#[inline]
pub fn are_behind_at(p: &[i64; 3], q: &[i64; 3], a: &[i64; 3]) -> bool
    requires p { IsWithin offset_limit p.now }
    requires q { IsWithin offset_limit q.now }
    requires a { IsWithin axis_limit a.now }
    ensures { IsTrue result → AreBehindAt p.now q.now a.now }
{
    height(p, a) < 0 && height(q, a) < 0
}

/// Whether the middle coefficient of u is below 0, by a point's offsets p and q and the axes a and c at both samples.
#[inline]
fn is_behind_amid(p: &[i64; 3], q: &[i64; 3], a: &[i64; 3], c: &[i64; 3]) -> bool
    requires p { IsWithin offset_limit p.now }
    requires q { IsWithin offset_limit q.now }
    requires a { IsWithin axis_limit a.now }
    requires c { IsWithin axis_limit c.now }
    ensures { IsTrue result → (dot p.now c.now +ℤ dot q.now a.now) <ℤ pos 0 }
{
    total(height(p, c), height(q, a)) < 0
}

/// Twice the sum of two squared lengths.
#[inline]
fn twice(x: i64, y: i64) -> i64
    requires x { unsigned_abs x ≤ 3 * part_limit }
    requires y { unsigned_abs y ≤ 3 * part_limit }
    ensures { result ≡ pos 2 *ℤ x +ℤ pos 2 *ℤ y }
{
    2 * x + 2 * y
}

/// The middle coefficient of three that are raised.
#[inline]
fn middle(x: i64, y: i64, z: i64) -> i64
    requires x { unsigned_abs x ≤ 3 * part_limit }
    requires y { unsigned_abs y ≤ 3 * part_limit }
    requires z { unsigned_abs z ≤ 3 * part_limit }
    ensures { result ≡ (x +ℤ pos 4 *ℤ y) +ℤ z }
{
    x + 4 * y + z
}

/// The squared length of the axis, raised to degree 4, by the axes at both samples.
#[inline]
fn raised(a: &[i64; 3], c: &[i64; 3]) -> [i64; 5]
    requires a { IsWithin axis_limit a.now }
    requires c { IsWithin axis_limit c.now }
    ensures { result ≡ lifted (dot_on_cell a.now c.now a.now c.now) }
{
    let first = height(a, a);
    let both = height(a, c);
    let last = height(c, c);
    [
        first,
        twice(first, both),
        middle(first, both, last),
        twice(both, last),
        last,
    ]
}

/// The limit of a coefficient.
#[inline]
fn limit_of(square: i64, raised: i64) -> i128
    ensures { result ≡ square *ℤ raised }
{
    i128::from(square) * i128::from(raised)
}

/// Whether four times a number is above a limit.
#[inline]
fn is_above(limit: i128, number: i128) -> bool
    requires { unsigned_abs number ≤ 9 * (moments_limit * moments_limit) }
    ensures { IsTrue result → limit <ℤ (pos 4 *ℤ number) }
{
    limit < 4 * number
}

/// Whether two points are beside a diameter at a sample, and all between them are, by their moments and the axis there.
#[inline]
pub fn are_beside_at(x: &[i64; 3], y: &[i64; 3], a: &[i64; 3], square: i64) -> bool
    requires x { IsWithin moments_limit x.now }
    requires y { IsWithin moments_limit y.now }
    requires a { IsWithin axis_limit a.now }
    ensures { IsTrue result → AreBesideAt square x.now y.now a.now }
{
    let limit = limit_of(square, height(a, a));
    if !is_above(limit, product(x, x)) {
        return false;
    }
    if !is_above(limit, product(y, y)) {
        return false;
    }
    is_above(limit, product(x, y))
}

/// Whether one coefficient is above the limit's for both points and between them.
#[inline]
fn are_above(x: &Moments, y: &Moments, i: usize, square: i64, raised: i64) -> bool
    requires { i < 5 }
    ensures { let x = x.now in let y = y.now in IsTrue result → AreAbove square raised
        (at (vector_product x.start x.middle x.end x.start x.middle x.end) i)
        (at (vector_product x.start x.middle x.end y.start y.middle y.end) i)
        (at (vector_product y.start y.middle y.end y.start y.middle y.end) i) }
{
    if raised < 0 {
        return false;
    }
    let limit = limit_of(square, raised);
    if !is_above(limit, x.times(x, i)) {
        return false;
    }
    if !is_above(limit, y.times(y, i)) {
        return false;
    }
    is_above(limit, x.times(y, i))
}

/// Whether the coefficients between the outer ones are above the limits' for both points and between them.
#[inline]
fn are_beside_amid(x: &Moments, y: &Moments, square: i64, raised: &[i64; 5]) -> bool
    ensures { let x = x.now in let y = y.now in IsTrue result → (i : ℕ) → 0 < i → i < 4 → AreAbove square (at raised.now i)
        (at (vector_product x.start x.middle x.end x.start x.middle x.end) i)
        (at (vector_product x.start x.middle x.end y.start y.middle y.end) i)
        (at (vector_product y.start y.middle y.end y.start y.middle y.end) i) }
{
    if !are_above(x, y, 3, square, raised[3]) {
        return false;
    }
    if !are_above(x, y, 1, square, raised[1]) {
        return false;
    }
    are_above(x, y, 2, square, raised[2])
}

/// Whether both points are behind the tip throughout.
#[inline]
fn are_behind(start: &Pair, end: &Pair) -> bool
    ensures { let s = start.now in let e = end.now in IsTrue result
        → (IsBehind s.first.offset e.first.offset s.first.axis e.first.axis
        × IsBehind s.last.offset e.last.offset s.first.axis e.first.axis) }
{
    if !start.is_behind {
        return false;
    }
    if !end.is_behind {
        return false;
    }
    let a = &start.first.axis;
    let c = &end.first.axis;
    if !is_behind_amid(&start.first.offset, &end.first.offset, a, c) {
        return false;
    }
    is_behind_amid(&start.last.offset, &end.last.offset, a, c)
}

/// Whether all points between two are beside a diameter whose scaled square is given throughout. They have to be at both samples, which is
/// tested first.
#[inline]
fn are_beside(start: &Pair, end: &Pair, square: i64) -> bool
    requires start { let s = start.now in IsTrue s.is_beside → AreBesideAt square s.first_moment s.last_moment s.first.axis }
    requires end { let e = end.now in IsTrue e.is_beside → AreBesideAt square e.first_moment e.last_moment e.first.axis }
    ensures { let s = start.now in let e = end.now in IsTrue result
        → AreBeside square s.first.offset e.first.offset s.last.offset e.last.offset s.first.axis e.first.axis }
{
    if !start.is_beside {
        return false;
    }
    if !end.is_beside {
        return false;
    }
    let a = &start.first.axis;
    let c = &end.first.axis;
    let x = Moments::joining(
        &start.first_moment,
        &end.first_moment,
        &start.first.offset,
        &end.first.offset,
        a,
        c,
    );
    let y = Moments::joining(
        &start.last_moment,
        &end.last_moment,
        &start.last.offset,
        &end.last.offset,
        a,
        c,
    );
    are_beside_amid(&x, &y, square, &raised(a, c))
}

/// Whether all points between two are behind the tip between two samples, or beside a diameter whose scaled square is given.
pub fn are_missed(start: &Pair, end: &Pair, square: i64) -> bool
    requires start { let s = start.now in IsTrue s.is_beside → AreBesideAt square s.first_moment s.last_moment s.first.axis }
    requires end { let e = end.now in IsTrue e.is_beside → AreBesideAt square e.first_moment e.last_moment e.first.axis }
    ensures { let s = start.now in let e = end.now in IsTrue result
        → AreMissed square s.first.offset e.first.offset s.last.offset e.last.offset s.first.axis e.first.axis }
{
    if are_behind(start, end) {
        return true;
    }
    are_beside(start, end, square)
}
