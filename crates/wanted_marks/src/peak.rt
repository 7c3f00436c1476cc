ghost use Rattle.std.specs.Prelude.{◌≡◌, ◌*◌, ◌≤◌, ◌<◌, ◌≤ℤ◌, ◌*ℤ◌, pos, true, ◌∷◌, [], length, get_or, unsigned_abs};
ghost use Rattle.bern_form.specs.Sizes.{IsBounded2, axis_limit, offset_limit, scale_limit};
ghost use Rattle.box_bisect.specs.SlabTests.{no_slab};
ghost use Rattle.wanted_marks.specs.Peaks.{IsLeast, IsPeak, is_under};

use axis_cells::short_scaled_square;
use bern_form::{Form2, Slab};
use width_bisect::product;

/// The greater of two numbers.
#[inline]
fn greater(a: u64, b: u64) -> u64
    requires a { a ≤ 6 * (offset_limit * axis_limit) }
    requires b { b ≤ 6 * (offset_limit * axis_limit) }
    ensures first { a ≤ result }
    ensures second { b ≤ result }
    ensures few { result ≤ 6 * (offset_limit * axis_limit) }
{
    if a < b { b } else { a }
}

/// The lesser of two numbers.
#[inline]
fn lesser(a: i64, b: i64) -> i64
    ensures first { result ≤ℤ a }
    ensures second { result ≤ℤ b }
{
    if a < b { a } else { b }
}

/// The square of a number that fits 63 bits.
#[inline]
fn square_of(a: u64) -> i128
    requires { a ≤ 6 * (offset_limit * axis_limit) }
    ensures { result ≡ pos (a * a) }
{
    let root = a as i64;
    product(root, root)
}

/// The greatest of the square of the middle coefficient of u and the squares of twice the outer ones: the square of the greatest
/// without its sign.
#[inline]
pub fn peak_of(first: i64, middle: i64, last: i64) -> i128
    requires first { unsigned_abs first ≤ 3 * (offset_limit * axis_limit) }
    requires middle { unsigned_abs middle ≤ 6 * (offset_limit * axis_limit) }
    requires last { unsigned_abs last ≤ 3 * (offset_limit * axis_limit) }
    ensures { IsPeak result (first ∷ middle ∷ last ∷ []) }
{
    let outer = greater(2 * first.unsigned_abs(), 2 * last.unsigned_abs());
    square_of(greater(middle.unsigned_abs(), outer))
}

/// Four times an outer coefficient of n.
#[inline]
fn four_times(z: i128) -> i64
    requires { unsigned_abs z ≤ 3 * (axis_limit * axis_limit) }
    ensures { result ≡ pos 4 *ℤ z }
{
    4 * z as i64
}

/// Twice the middle one.
#[inline]
fn twice(z: i128) -> i64
    requires { unsigned_abs z ≤ 2 * (3 * (axis_limit * axis_limit)) }
    ensures { result ≡ pos 2 *ℤ z }
{
    2 * z as i64
}

/// The least of twice the middle coefficient of n and four times the outer ones.
pub fn least_of(n: &Form2) -> i64
    requires { IsBounded2 (3 * (axis_limit * axis_limit)) n.now.c }
    ensures { IsLeast result n.now.c }
{
    lesser(
        twice(n.c[1]),
        lesser(four_times(n.c[0]), four_times(n.c[2])),
    )
}

/// How high a point is at most throughout a move: what `peak_of` gives of u, against what `least_of` gives of n.
#[derive(Drop)]
pub struct Peak {
    pub scale: u32,
    pub square: i128,
    pub least: i64,
    ghost scale_small: { scale ≤ scale_limit },
}

impl Peak {
    /// Whether the slab begins higher.
    #[inline]
    fn is_under(&self, slab: &Slab) -> bool
        ensures { let at = self.now in result ≡ is_under at.scale at.square at.least slab.now }
    {
        self.square < product(short_scaled_square(self.scale, slab.lo), self.least)
    }

    /// From a number downwards to one before which the slab begins no higher.
    #[inline]
    fn walk_down(&self, slabs: &[Slab], high: usize) -> usize
        requires { high ≤ length slabs.now }
        ensures { result ≤ high }
    {
        let mut at = high;
        while 0 < at {
            if !self.is_under(&slabs[at - 1]) {
                return at;
            }
            at -= 1;
        }
        at
    }

    /// From a number upwards to that of a slab that begins higher.
    #[inline]
    pub fn walk_up(&self, slabs: &[Slab], low: usize) -> usize
        requires { low ≤ length slabs.now }
        ensures within { result ≤ length slabs.now }
        ensures under { let at = self.now in
            result < length slabs.now → is_under at.scale at.square at.least (get_or slabs.now result no_slab) ≡ true }
    {
        let mut at = low;
        while at < slabs.len() {
            if self.is_under(&slabs[at]) {
                return at;
            }
            at += 1;
        }
        at
    }

    /// The number of the lowest slab that begins higher, as those above it do. It is looked for from any number on, best from one near it.
    #[inline]
    pub fn reached(&self, slabs: &[Slab], near: usize) -> usize
        ensures within { result ≤ length slabs.now }
        ensures under { let at = self.now in
            result < length slabs.now → is_under at.scale at.square at.least (get_or slabs.now result no_slab) ≡ true }
    {
        self.walk_up(slabs, self.walk_down(slabs, near.min(slabs.len())))
    }
}
