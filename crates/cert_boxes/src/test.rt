ghost use Rattle.std.specs.Prelude.{◌≡◌, ◌+◌, ◌*◌, ◌≤◌, ◌<◌, ◌*ℤ◌, pos, false, true, unsigned_abs};
ghost use Rattle.std.specs.List.{list_all};
ghost use Rattle.space.specs.Vectors.{at};
ghost use Rattle.bern_form.specs.Forms.{all_positive, lifted, product22};
ghost use Rattle.bern_form.specs.Sizes.{IsBounded2, IsBounded4, axis_limit, length_limit, offset_limit, scale_limit};
ghost use Rattle.cutter_slabs.specs.Rising.{IsRising};
ghost use Rattle.ray_boxes.specs.Boxes.{grid_less, height_column, is_excluded_by_grids, width_column};
ghost use Rattle.cert_boxes.specs.Forms.{column_bound};
ghost use Rattle.cert_boxes.specs.Sides.{is_row_on, rows_on};
ghost use Rattle.cert_boxes.specs.SlabOrder.{SwitchesAt, SwitchesBetween, is_above_by_grid, is_below_by_grid, is_beside_by_grid};

use crate::forms::CellForms;
use crate::side::{Side, is_row_on, limit_times};
use axis_cells::scaled_square;
use bern_form::{Form2, Form4, Slab, lift24, minus4, scale4, times22};

/// Three columns of a quantity of degree 4 in time and 2 along a ray.
#[derive(Drop)]
pub struct Columns {
    pub first: Form4,
    pub middle: Form4,
    pub last: Form4,
    ghost first_small: { IsBounded4 column_bound first.c },
    ghost middle_small: { IsBounded4 column_bound middle.c },
    ghost last_small: { IsBounded4 column_bound last.c },
}

impl Columns {
    /// Whether one row, that of a power of the time, is on that side of a limit times another quantity, which is the same all along
    /// the ray and has the weights 1, 2 and 1 there.
    #[inline]
    fn is_on(&self, side: Side, i: usize, limit: i128, raised: &Form4) -> bool
        requires i { i < 5 }
        requires limit { unsigned_abs limit ≤ length_limit * length_limit }
        requires raised { IsBounded4 (18 * (axis_limit * axis_limit)) raised.now.c }
        ensures { result
            ≡ is_row_on side (at self.now.first.c i) (at self.now.middle.c i) (at self.now.last.c i) (limit *ℤ at raised.now.c i) }
    {
        let once = limit_times(limit, raised.c[i]);
        is_row_on(
            side,
            self.first.c[i],
            self.middle.c[i],
            self.last.c[i],
            once,
        )
    }

    /// Whether each row is.
    fn are_on(&self, side: Side, limit: i128, raised: &Form4) -> bool
        requires limit { unsigned_abs limit ≤ length_limit * length_limit }
        requires raised { IsBounded4 (18 * (axis_limit * axis_limit)) raised.now.c }
        ensures { result ≡ rows_on side (grid_less raised.now.c limit self.now.first.c self.now.middle.c self.now.last.c) }
    {
        for i in 0..5 {
            if !self.is_on(side, i, limit, raised) {
                return false;
            }
        }
        true
    }

    /// The columns of u^2, by u at both points.
    fn of_height(u: &Form2, v: &Form2) -> Columns
        requires u { IsBounded2 (3 * (offset_limit * axis_limit)) u.now.c }
        requires v { IsBounded2 (3 * (offset_limit * axis_limit)) v.now.c }
        ensures first { result.first.c ≡ product22 u.now.c u.now.c }
        ensures middle { result.middle.c ≡ height_column (pos 2) u.now.c v.now.c }
        ensures last { result.last.c ≡ product22 v.now.c v.now.c }
    {
        Columns {
            first: times22(u, u),
            middle: scale4(&times22(u, v), 2),
            last: times22(v, v),
        }
    }

    /// The columns of 4 (d n - u^2), by the forms of both points and the product of their offsets.
    fn of_width(forms: &CellForms) -> Columns
        ensures first { result.first.c
            ≡ width_column (pos 4) forms.now.first.d.c forms.now.first.n.c forms.now.first.u.c forms.now.first.u.c }
        ensures middle { result.middle.c
            ≡ width_column (pos 8) forms.now.product.c forms.now.first.n.c forms.now.first.u.c forms.now.last.u.c }
        ensures last { result.last.c
            ≡ width_column (pos 4) forms.now.last.d.c forms.now.first.n.c forms.now.last.u.c forms.now.last.u.c }
    {
        let n = &forms.first.n;
        let u = &forms.first.u;
        let v = &forms.last.u;
        Columns {
            first: width_between(&forms.first.d, n, u, u, 4),
            middle: width_between(&forms.product, n, u, v, 8),
            last: width_between(&forms.last.d, n, v, v, 4),
        }
    }
}

/// `times` times d n - u v.
#[inline]
fn width_between(d: &Form2, n: &Form2, u: &Form2, v: &Form2, times: i128) -> Form4
    requires d { IsBounded2 (3 * (offset_limit * offset_limit)) d.now.c }
    requires n { IsBounded2 (3 * (axis_limit * axis_limit)) n.now.c }
    requires u { IsBounded2 (3 * (offset_limit * axis_limit)) u.now.c }
    requires v { IsBounded2 (3 * (offset_limit * axis_limit)) v.now.c }
    requires times { unsigned_abs times ≤ 8 }
    ensures column { result.c ≡ width_column times d.now.c n.now.c u.now.c v.now.c }
    ensures small { IsBounded4 column_bound result.c }
{
    scale4(&minus4(&times22(d, n), &times22(u, v)), times)
}

/// What the slabs' tests on a box share that isn't behind the tip: n raised to degree 4, u^2, and 4 (d n - u^2), which is four times
/// the squared distance from the axis times n.
#[derive(Drop)]
pub struct BoxTest {
    pub scale: u32,
    pub raised: Form4,
    pub height: Columns,
    pub width: Columns,
    ghost scale_small: { scale ≤ scale_limit },
    ghost raised_small: { IsBounded4 (18 * (axis_limit * axis_limit)) raised.c },
}

impl BoxTest {
    /// Of the forms of a box at this scale, at most 1024.
    pub fn of_forms(forms: &CellForms, scale: u32) -> BoxTest
        requires { scale ≤ scale_limit }
        ensures scale { result.scale ≡ scale }
        ensures raised { result.raised.c ≡ lifted forms.now.first.n.c }
        ensures height_first { result.height.first.c ≡ product22 forms.now.first.u.c forms.now.first.u.c }
        ensures height_middle { result.height.middle.c ≡ height_column (pos 2) forms.now.first.u.c forms.now.last.u.c }
        ensures height_last { result.height.last.c ≡ product22 forms.now.last.u.c forms.now.last.u.c }
        ensures width_first { result.width.first.c
            ≡ width_column (pos 4) forms.now.first.d.c forms.now.first.n.c forms.now.first.u.c forms.now.first.u.c }
        ensures width_middle { result.width.middle.c
            ≡ width_column (pos 8) forms.now.product.c forms.now.first.n.c forms.now.first.u.c forms.now.last.u.c }
        ensures width_last { result.width.last.c
            ≡ width_column (pos 4) forms.now.last.d.c forms.now.first.n.c forms.now.last.u.c forms.now.last.u.c }
    {
        BoxTest {
            scale,
            raised: lift24(&forms.first.n),
            height: Columns::of_height(&forms.first.u, &forms.last.u),
            width: Columns::of_width(forms),
        }
    }

    /// Whether the points are below the slab throughout.
    #[inline]
    fn is_below(&self, slab: &Slab) -> bool
        ensures { let h = self.now.height in result
            ≡ is_below_by_grid self.now.scale self.now.raised.c h.first.c h.middle.c h.last.c slab.now }
    {
        let square = scaled_square(self.scale, slab.lo);
        self.height.are_on(Side::Below, square, &self.raised)
    }

    /// Whether they are above it throughout.
    #[inline]
    fn is_above(&self, slab: &Slab) -> bool
        ensures { let h = self.now.height in result
            ≡ is_above_by_grid self.now.scale self.now.raised.c h.first.c h.middle.c h.last.c slab.now }
    {
        let square = scaled_square(self.scale, slab.hi);
        self.height.are_on(Side::Above, square, &self.raised)
    }

    /// Whether they are further from the axis than half of its diameter throughout.
    #[inline]
    fn is_beside(&self, slab: &Slab) -> bool
        ensures { let w = self.now.width in result
            ≡ is_beside_by_grid self.now.scale self.now.raised.c w.first.c w.middle.c w.last.c slab.now }
    {
        let square = scaled_square(self.scale, slab.dia);
        self.width.are_on(Side::Above, square, &self.raised)
    }

    /// Whether the slab is excluded on the box: the points are below the slab throughout, or above it, or beside it.
    fn excludes(&self, slab: &Slab) -> bool
        ensures { let h = self.now.height in let w = self.now.width in result
            ≡ is_excluded_by_grids self.now.scale false self.now.raised.c
            h.first.c h.middle.c h.last.c w.first.c w.middle.c w.last.c slab.now }
    {
        if self.is_below(slab) {
            return true;
        }
        if self.is_above(slab) {
            return true;
        }
        self.is_beside(slab)
    }

    /// Whether every one of any slabs is excluded.
    fn excludes_each(&self, slabs: &[Slab]) -> bool
        ensures { let h = self.now.height in let w = self.now.width in result
            ≡ list_all (is_excluded_by_grids self.now.scale false self.now.raised.c
            h.first.c h.middle.c h.last.c w.first.c w.middle.c w.last.c) slabs.now }
    {
        for slab in slabs {
            if !self.excludes(slab) {
                return false;
            }
        }
        true
    }

    /// The number of the lowest slab that the points are below, of slabs that rise, by halving what is between two numbers.
    fn first_above(&self, slabs: &[Slab], low: usize, high: usize) -> usize
        requires ordered { low ≤ high }
        requires between { let h = self.now.height in
            SwitchesBetween (is_below_by_grid self.now.scale self.now.raised.c h.first.c h.middle.c h.last.c) slabs.now low high }
        ensures { let h = self.now.height in
            SwitchesAt (is_below_by_grid self.now.scale self.now.raised.c h.first.c h.middle.c h.last.c) slabs.now result }
    {
        if low == high {
            return low;
        }
        let middle = low + (high - low) / 2;
        if self.is_below(&slabs[middle]) {
            return self.first_above(slabs, low, middle);
        }
        self.first_above(slabs, middle + 1, high)
    }

    /// Whether every one of slabs that rise is excluded, where n is above 0 by its coefficients. The highest slab that the points
    /// aren't below decides: they are below those above it, and above or beside those below it where they are above or beside it.
    fn excludes_by_one(&self, slabs: &[Slab]) -> bool
        requires positive { all_positive self.now.raised.c ≡ true }
        requires rising { IsRising slabs.now }
        ensures { let h = self.now.height in let w = self.now.width in result
            ≡ list_all (is_excluded_by_grids self.now.scale false self.now.raised.c
            h.first.c h.middle.c h.last.c w.first.c w.middle.c w.last.c) slabs.now }
    {
        let above = self.first_above(slabs, 0, slabs.len());
        if above == 0 {
            return true;
        }
        self.excludes(&slabs[above - 1])
    }

    /// Whether every one of slabs that rise is excluded.
    pub fn excludes_all(&self, slabs: &[Slab]) -> bool
        requires { IsRising slabs.now }
        ensures { let h = self.now.height in let w = self.now.width in result
            ≡ list_all (is_excluded_by_grids self.now.scale false self.now.raised.c
            h.first.c h.middle.c h.last.c w.first.c w.middle.c w.last.c) slabs.now }
    {
        if self.raised.all_positive() {
            return self.excludes_by_one(slabs);
        }
        self.excludes_each(slabs)
    }
}
