ghost use Rattle.std.specs.Prelude.{◌≡◌, ◌*◌, ◌<◌, ◌≤◌, ◌&&◌, ◌*ℤ◌, ◌-ℤ◌, pos, int_le, unsigned_abs};
ghost use Rattle.space.specs.Ranges.{IsWithin};
ghost use Rattle.space.specs.Vectors.{at, dot, spread};
ghost use Rattle.bern_form.specs.Sizes.{axis_limit, offset_limit, scale_limit};
ghost use Rattle.bern_form.specs.Cells.{scaled_square};
ghost use Rattle.bern_form.specs.Slab.{covers};
ghost use Rattle.axis_cells.specs.Exclusion.{covered_by_some};

use crate::length::scaled_square;
use crate::pose::Pose;
use bern_form::Slab;

/// The product of one component of two vectors.
#[inline]
fn component_product(p: &[i64; 3], a: &[i64; 3], i: usize) -> i128
    requires axis { i < 3 }
    requires p { unsigned_abs (at p.now i) ≤ offset_limit }
    requires a { unsigned_abs (at a.now i) ≤ offset_limit }
    ensures value { result ≡ at p.now i *ℤ at a.now i }
    ensures small { unsigned_abs result ≤ offset_limit * offset_limit }
{
    i128::from(p[i]) * i128::from(a[i])
}

/// The scalar product of two vectors.
#[inline]
fn scalar_product(p: &[i64; 3], a: &[i64; 3]) -> i128
    requires p { IsWithin offset_limit p.now }
    requires a { IsWithin offset_limit a.now }
    ensures { result ≡ dot p.now a.now }
{
    component_product(p, a, 0) + component_product(p, a, 1) + component_product(p, a, 2)
}

/// Whether a number is between two others, both included.
#[inline]
fn is_between(low: i128, middle: i128, high: i128) -> bool
    ensures { result ≡ (int_le low middle && int_le middle high) }
{
    low <= middle && middle <= high
}

/// Whether a point is ahead of the tip, between two heights and within a width, each given by its square.
#[inline]
fn lies_within(
    u: i128,
    lowest: i128,
    height: i128,
    highest: i128,
    width: i128,
    widest: i128,
) -> bool
    ensures { result ≡ (int_le (pos 0) u && (int_le lowest height && (int_le height highest && int_le width widest))) }
{
    if u < 0 {
        return false;
    }
    if width > widest {
        return false;
    }
    is_between(lowest, height, highest)
}

/// What the slabs' tests at one sample share, by the point's offset p and the axis a: u = p.a, n = |a|^2, and
/// w = |p|^2 n - u^2, the squared distance from the axis times n.
#[derive(Drop)]
pub struct Sample {
    pub scale: u32,
    pub u: i128,
    pub n: i128,
    pub w: i128,
    ghost scale_small: { scale ≤ scale_limit },
    ghost u_small: { unsigned_abs u ≤ 3 * (offset_limit * axis_limit) },
    ghost n_small: { unsigned_abs n ≤ 3 * (axis_limit * axis_limit) },
    ghost w_small: { unsigned_abs w ≤ 18 * (offset_limit * axis_limit) * (offset_limit * axis_limit) },
}

impl Sample {
    /// By u, n and d = |p|^2.
    #[inline]
    pub fn of(scale: u32, u: i128, n: i128, d: i128) -> Sample
        requires scale { scale ≤ scale_limit }
        requires u { unsigned_abs u ≤ 3 * (offset_limit * axis_limit) }
        requires n { unsigned_abs n ≤ 3 * (axis_limit * axis_limit) }
        requires d { unsigned_abs d ≤ 3 * (offset_limit * offset_limit) }
        ensures scale { result.scale ≡ scale }
        ensures u { result.u ≡ u }
        ensures n { result.n ≡ n }
        ensures w { result.w ≡ d *ℤ n -ℤ u *ℤ u }
    {
        Sample {
            scale,
            u,
            n,
            w: d * n - u * u,
        }
    }

    /// Of a pose at this scale, at most 1024.
    pub fn of_pose(pose: &Pose, scale: u32) -> Sample
        requires { scale ≤ scale_limit }
        ensures scale { result.scale ≡ scale }
        ensures u { result.u ≡ dot pose.now.offset pose.now.axis }
        ensures n { result.n ≡ dot pose.now.axis pose.now.axis }
        ensures w { result.w ≡ spread pose.now.offset pose.now.axis }
    {
        let u = scalar_product(&pose.offset, &pose.axis);
        let n = scalar_product(&pose.axis, &pose.axis);
        let d = scalar_product(&pose.offset, &pose.offset);
        Sample::of(scale, u, n, d)
    }

    /// n times the square of a length.
    #[inline]
    pub fn squared(&self, length: i32) -> i128
        requires { unsigned_abs length ≤ 300000 }
        ensures { result ≡ scaled_square self.now.scale length *ℤ self.now.n }
    {
        scaled_square(self.scale, length) * self.n
    }

    /// Whether the slab holds the point at this sample.
    pub fn is_covered_by(&self, slab: &Slab) -> bool
        ensures { result ≡ covers slab.now (pos self.now.scale) self.now.u self.now.n self.now.w }
    {
        let lowest = self.squared(slab.lo);
        let highest = self.squared(slab.hi);
        let widest = self.squared(slab.dia);
        let height = self.u * self.u;
        let width = 4 * self.w;
        lies_within(self.u, lowest, height, highest, width, widest)
    }

    /// Whether some of the slabs holds the point at this sample.
    pub fn is_covered_by_some(&self, slabs: &[Slab]) -> bool
        ensures { result ≡ covered_by_some (pos self.now.scale) self.now.u self.now.n self.now.w slabs.now }
    {
        for slab in slabs {
            if self.is_covered_by(slab) {
                return true;
            }
        }
        false
    }
}
