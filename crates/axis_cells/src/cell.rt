ghost use Rattle.std.specs.Prelude.{◌≡◌, ◌+◌, ◌*◌, ◌<◌, ◌≤◌, pos, unsigned_abs, All};
ghost use Rattle.bern_form.specs.Forms.{IsSmall, all_negative, all_positive, difference4, product11, product22, scaled4};
ghost use Rattle.space.specs.Ranges.{IsPoint, IsWithin};
ghost use Rattle.bern_form.specs.Cells.{dot_on_cell, ends};
ghost use Rattle.axis_cells.specs.Exclusion.{IsCellOf, excluded_by, leaves_some, squared};
ghost use Rattle.bern_form.specs.Sizes.{IsBounded2, IsBounded4, axis_limit, length_limit, offset_limit, scale_limit};

use crate::length::scaled_square;
use crate::pose::Pose;
use crate::sweep::Sweep;
use bern_form::{
    Form1, Form2, Form4, Slab, lift24, minus4, plus2, scale2, scale4, times11, times22,
};

/// A component of a vector that is linear on a cell, from the vector's values at both ends.
#[inline]
fn component(first: &[i64; 3], last: &[i64; 3], i: usize) -> Form1
    requires { i < 3 }
    ensures { result.c ≡ ends first.now last.now i }
{
    Form1 {
        c: [i128::from(first[i]), i128::from(last[i])],
    }
}

/// The product of one component of two such vectors: the convolution of both.
#[inline]
fn component_product(p: &[i64; 3], q: &[i64; 3], a: &[i64; 3], c: &[i64; 3], i: usize) -> Form2
    requires axis { i < 3 }
    requires small { All IsSmall (product11 (ends p.now q.now i) (ends a.now c.now i)) }
    ensures { result.c ≡ product11 (ends p.now q.now i) (ends a.now c.now i) }
{
    times11(&component(p, q, i), &component(a, c, i))
}

/// The scalar product of two vectors that are linear on a cell, from their values `p` and `a` at its first end and `q` and
/// `c` at its last: the sum of the convolutions of their components.
#[inline]
pub fn scalar_product_on_cell(p: &[i64; 3], q: &[i64; 3], a: &[i64; 3], c: &[i64; 3]) -> Form2
    requires p { IsWithin offset_limit p.now }
    requires q { IsWithin offset_limit q.now }
    requires a { IsWithin offset_limit a.now }
    requires c { IsWithin offset_limit c.now }
    ensures { result.c ≡ dot_on_cell p.now q.now a.now c.now }
{
    let x = component_product(p, q, a, c, 0);
    let y = component_product(p, q, a, c, 1);
    let z = component_product(p, q, a, c, 2);
    plus2(&plus2(&x, &y), &z)
}

/// What the slabs' tests on one time cell share. By the point's offset p and the axis a, both linear on the cell, u = p.a,
/// n = |a|^2 and d = |p|^2 are forms of degree 2; `height` is u^2 and `width` is 4 (d n - u^2), which is four times the squared
/// distance from the axis times n.
#[derive(Drop)]
pub struct Cell {
    pub scale: u32,
    pub is_behind: bool,
    pub n: Form2,
    pub height: Form4,
    pub width: Form4,
    ghost scale_small: { scale ≤ scale_limit },
    ghost n_small: { IsBounded2 (3 * (axis_limit * axis_limit)) n.c },
    ghost height_small: { IsBounded4 (54 * (offset_limit * axis_limit) * (offset_limit * axis_limit)) height.c },
    ghost width_small: { IsBounded4 (432 * (offset_limit * axis_limit) * (offset_limit * axis_limit)) width.c },
}

impl Cell {
    /// The cell between two neighbouring samples.
    pub fn between(first: &Pose, last: &Pose, scale: u32) -> Cell
        requires { scale ≤ scale_limit }
        ensures scale { result.scale ≡ scale }
        ensures behind { result.is_behind ≡ all_negative (dot_on_cell first.now.offset last.now.offset first.now.axis last.now.axis) }
        ensures n { result.n.c ≡ dot_on_cell first.now.axis last.now.axis first.now.axis last.now.axis }
        ensures height { let u = dot_on_cell first.now.offset last.now.offset first.now.axis last.now.axis in
            result.height.c ≡ product22 u u }
        ensures width { let u = dot_on_cell first.now.offset last.now.offset first.now.axis last.now.axis in
            let n = dot_on_cell first.now.axis last.now.axis first.now.axis last.now.axis in
            let d = dot_on_cell first.now.offset last.now.offset first.now.offset last.now.offset in
            result.width.c ≡ scaled4 (pos 4) (difference4 (product22 d n) (product22 u u)) }
    {
        let u = scalar_product_on_cell(&first.offset, &last.offset, &first.axis, &last.axis);
        let n = scalar_product_on_cell(&first.axis, &last.axis, &first.axis, &last.axis);
        let d = scalar_product_on_cell(&first.offset, &last.offset, &first.offset, &last.offset);
        let height = times22(&u, &u);
        let spread = minus4(&times22(&d, &n), &height);
        Cell {
            scale,
            is_behind: u.all_negative(),
            n,
            height,
            width: scale4(&spread, 4),
        }
    }

    /// The cell of a point from the time `k / scale` to the time `(k + 1) / scale`.
    pub fn of_point(sweep: &Sweep, point: &[i32; 3], k: u32, scale: u32) -> Cell
        requires point { IsPoint point.now }
        requires within { k < scale }
        requires scale { scale ≤ scale_limit }
        ensures { IsCellOf (pos result.scale) result.is_behind result.n.c result.height.c result.width.c sweep.now point.now k scale }
    {
        let first = Pose::at_sample(sweep, point, k, scale);
        let last = Pose::at_sample(sweep, point, k + 1, scale);
        Cell::between(&first, &last, scale)
    }

    /// n times the square of a length, raised to degree 4.
    #[inline]
    fn squared(&self, length: i32) -> Form4
        requires { unsigned_abs length ≤ 300000 }
        ensures list { result.c ≡ squared (pos self.now.scale) length self.now.n.c }
        ensures small { IsBounded4 (18 * (length_limit * axis_limit) * (length_limit * axis_limit)) result.c }
    {
        lift24(&scale2(&self.n, scaled_square(self.scale, length)))
    }

    /// Whether u^2 stays below lo^2 n throughout.
    fn is_below(&self, lo: i32) -> bool
        requires { unsigned_abs lo ≤ 300000 }
        ensures { result ≡ all_negative (difference4 self.now.height.c (squared (pos self.now.scale) lo self.now.n.c)) }
    {
        minus4(&self.height, &self.squared(lo)).all_negative()
    }

    /// Whether u^2 stays above hi^2 n throughout.
    fn is_above(&self, hi: i32) -> bool
        requires { unsigned_abs hi ≤ 300000 }
        ensures { result ≡ all_positive (difference4 self.now.height.c (squared (pos self.now.scale) hi self.now.n.c)) }
    {
        minus4(&self.height, &self.squared(hi)).all_positive()
    }

    /// Whether 4 w stays above dia^2 n throughout.
    fn is_beside(&self, dia: i32) -> bool
        requires { unsigned_abs dia ≤ 300000 }
        ensures { result ≡ all_positive (difference4 self.now.width.c (squared (pos self.now.scale) dia self.now.n.c)) }
    {
        minus4(&self.width, &self.squared(dia)).all_positive()
    }

    /// Whether the slab is excluded on this cell: the point is behind the tip throughout, or below the slab, or above it, or
    /// beside it.
    pub fn excludes(&self, slab: &Slab) -> bool
        ensures { result ≡ excluded_by (pos self.now.scale) self.now.is_behind self.now.n.c self.now.height.c self.now.width.c slab.now }
    {
        if self.is_behind {
            return true;
        }
        if self.is_below(slab.lo) {
            return true;
        }
        if self.is_above(slab.hi) {
            return true;
        }
        self.is_beside(slab.dia)
    }

    /// Whether some of the slabs is not excluded on this cell.
    pub fn leaves_some(&self, slabs: &[Slab]) -> bool
        ensures { result ≡ leaves_some (pos self.now.scale) self.now.is_behind self.now.n.c self.now.height.c self.now.width.c slabs.now }
    {
        for slab in slabs {
            if !self.excludes(slab) {
                return true;
            }
        }
        false
    }
}
