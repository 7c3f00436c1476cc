ghost use Rattle.std.specs.Prelude.{◌≡◌, ◌*◌, ◌<◌, ◌≤◌, ◌*ℤ◌, ◌-ℤ◌, ◌≤ℤ◌, List, ℤ, pos, unsigned_abs};
ghost use Rattle.space.specs.Ranges.{IsWithin, vector_limit};
ghost use Rattle.space.specs.Vectors.{at, dot};
ghost use Rattle.sweep_boxes.specs.Intervals.{IsAmong, IsNearer, offset_from};
ghost use Rattle.sweep_boxes.specs.Limits.{place_limit};

use crate::weight::weighted;
use space::product;

/// The offset of a place from a tip along an axis, taken times the scale.
#[inline]
fn offset_along(scale: u32, place: &[i32; 3], tip: &[i128; 3], i: usize) -> i128
    requires i { i < 3 }
    requires scale { scale ≤ 128 }
    requires place { unsigned_abs (at place.now i) ≤ place_limit }
    requires tip { unsigned_abs (at tip.now i) ≤ 128 * place_limit }
    ensures value { result ≡ pos scale *ℤ at place.now i -ℤ at tip.now i }
    ensures small { unsigned_abs result ≤ vector_limit }
{
    weighted(scale, place[i]) - tip[i]
}

/// The offset of a place from a tip, taken times the scale.
pub fn offset_from(scale: u32, tip: &[i128; 3], place: &[i32; 3]) -> [i128; 3]
    requires scale { scale ≤ 128 }
    requires place { IsWithin place_limit place.now }
    requires tip { IsWithin (128 * place_limit) tip.now }
    ensures value { result ≡ offset_from (pos scale) tip.now place.now }
    ensures small { IsWithin vector_limit result }
{
    [
        offset_along(scale, place, tip, 0),
        offset_along(scale, place, tip, 1),
        offset_along(scale, place, tip, 2),
    ]
}

/// How far from zero a component is.
#[inline]
fn size(v: &[i128; 3], i: usize) -> i128
    requires i { i < 3 }
    requires v { unsigned_abs (at v.now i) ≤ vector_limit }
    ensures { result ≡ pos (unsigned_abs (at v.now i)) }
{
    if v[i] < 0 { -v[i] } else { v[i] }
}

/// How far from zero each component is.
pub fn sizes(v: &[i128; 3]) -> [i128; 3]
    requires { IsWithin vector_limit v.now }
    ensures value { IsNearer v.now result }
    ensures small { IsWithin vector_limit result }
{
    [size(v, 0), size(v, 1), size(v, 2)]
}

/// How far from zero a number between two components can be.
#[inline]
fn farther(low: &[i128; 3], high: &[i128; 3], i: usize) -> i128
    requires i { i < 3 }
    requires low { unsigned_abs (at low.now i) ≤ vector_limit }
    requires high { unsigned_abs (at high.now i) ≤ vector_limit }
    ensures value { (z : ℤ) → at low.now i ≤ℤ z → z ≤ℤ at high.now i → pos (unsigned_abs z) ≤ℤ result }
    ensures small { unsigned_abs result ≤ vector_limit }
{
    let before = size(low, i);
    let after = size(high, i);
    if before < after { after } else { before }
}

/// How far from zero each component of a vector between two others can be.
pub fn farthest(low: &[i128; 3], high: &[i128; 3]) -> [i128; 3]
    requires low { IsWithin vector_limit low.now }
    requires high { IsWithin vector_limit high.now }
    ensures value { (v : List ℤ) → IsAmong low.now high.now v → IsNearer v result }
    ensures small { IsWithin vector_limit result }
{
    [
        farther(low, high, 0),
        farther(low, high, 1),
        farther(low, high, 2),
    ]
}

/// The least of the products of a component with the numbers between two others.
#[inline]
fn least_product(a: &[i128; 3], low: &[i128; 3], high: &[i128; 3], i: usize) -> i128
    requires i { i < 3 }
    requires a { unsigned_abs (at a.now i) ≤ vector_limit }
    requires low { unsigned_abs (at low.now i) ≤ vector_limit }
    requires high { unsigned_abs (at high.now i) ≤ vector_limit }
    ensures value { (z : ℤ) → at low.now i ≤ℤ z → z ≤ℤ at high.now i → result ≤ℤ (z *ℤ at a.now i) }
    ensures small { unsigned_abs result ≤ vector_limit * vector_limit }
{
    if a[i] < 0 {
        product(high, i, a, i)
    } else {
        product(low, i, a, i)
    }
}

/// The greatest of them.
#[inline]
fn most_product(a: &[i128; 3], low: &[i128; 3], high: &[i128; 3], i: usize) -> i128
    requires i { i < 3 }
    requires a { unsigned_abs (at a.now i) ≤ vector_limit }
    requires low { unsigned_abs (at low.now i) ≤ vector_limit }
    requires high { unsigned_abs (at high.now i) ≤ vector_limit }
    ensures value { (z : ℤ) → at low.now i ≤ℤ z → z ≤ℤ at high.now i → (z *ℤ at a.now i) ≤ℤ result }
    ensures small { unsigned_abs result ≤ vector_limit * vector_limit }
{
    if a[i] < 0 {
        product(low, i, a, i)
    } else {
        product(high, i, a, i)
    }
}

/// At most the scalar product of any vector between two others with an axis.
pub fn least_dot(a: &[i128; 3], low: &[i128; 3], high: &[i128; 3]) -> i128
    requires a { IsWithin vector_limit a.now }
    requires low { IsWithin vector_limit low.now }
    requires high { IsWithin vector_limit high.now }
    ensures value { (v : List ℤ) → IsAmong low.now high.now v → result ≤ℤ dot v a.now }
    ensures small { unsigned_abs result ≤ 3 * (vector_limit * vector_limit) }
{
    least_product(a, low, high, 0) + least_product(a, low, high, 1) + least_product(a, low, high, 2)
}

/// At least the scalar product of any vector between two others with an axis.
pub fn most_dot(a: &[i128; 3], low: &[i128; 3], high: &[i128; 3]) -> i128
    requires a { IsWithin vector_limit a.now }
    requires low { IsWithin vector_limit low.now }
    requires high { IsWithin vector_limit high.now }
    ensures value { (v : List ℤ) → IsAmong low.now high.now v → dot v a.now ≤ℤ result }
    ensures small { unsigned_abs result ≤ 3 * (vector_limit * vector_limit) }
{
    most_product(a, low, high, 0) + most_product(a, low, high, 1) + most_product(a, low, high, 2)
}
