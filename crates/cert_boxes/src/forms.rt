ghost use Rattle.std.specs.Prelude.{◌≡◌, ◌+◌, ◌*◌, ◌<◌, ◌≤◌};
ghost use Rattle.space.specs.Ranges.{IsPoint};
ghost use Rattle.bern_form.specs.Cells.{dot_on_cell};
ghost use Rattle.bern_form.specs.Grids.{columns21, rows_negative};
ghost use Rattle.bern_form.specs.Sizes.{IsBounded2, axis_limit, offset_limit, scale_limit};
ghost use Rattle.ray_boxes.specs.Boxes.{product_between};
ghost use Rattle.cert_boxes.specs.Forms.{AreEndForms};

use axis_cells::{Pose, Sweep, scalar_product_on_cell};
use bern_form::{Form2, Grid21};

/// What the test of a box rests on at one of its two end points. By the point's offset p from the tip and the axis a, which are
/// linear on the cell, u = p.a, n = |a|^2 and d = |p|^2 are forms of degree 2.
#[derive(Drop)]
pub struct EndForms {
    pub u: Form2,
    pub n: Form2,
    pub d: Form2,
    ghost u_small: { IsBounded2 (3 * (offset_limit * axis_limit)) u.c },
    ghost n_small: { IsBounded2 (3 * (axis_limit * axis_limit)) n.c },
    ghost d_small: { IsBounded2 (3 * (offset_limit * offset_limit)) d.c },
}

impl EndForms {
    /// The forms of a point between its poses at two samples.
    fn between(start: &Pose, end: &Pose) -> EndForms
        ensures u { result.u.c ≡ dot_on_cell start.now.offset end.now.offset start.now.axis end.now.axis }
        ensures n { result.n.c ≡ dot_on_cell start.now.axis end.now.axis start.now.axis end.now.axis }
        ensures d { result.d.c ≡ dot_on_cell start.now.offset end.now.offset start.now.offset end.now.offset }
    {
        EndForms {
            u: scalar_product_on_cell(&start.offset, &end.offset, &start.axis, &end.axis),
            n: scalar_product_on_cell(&start.axis, &end.axis, &start.axis, &end.axis),
            d: scalar_product_on_cell(&start.offset, &end.offset, &start.offset, &end.offset),
        }
    }
}

/// The grid of two columns of degree 2.
#[inline]
fn grid_of(first: &Form2, last: &Form2) -> Grid21
    ensures { result.c ≡ columns21 first.now.c last.now.c }
{
    let [a0, a1, a2] = first.c;
    let [b0, b1, b2] = last.c;
    Grid21 {
        c: [[a0, b0], [a1, b1], [a2, b2]],
    }
}

/// The forms of the first and of the last point of a box, and the scalar product of their offsets.
#[derive(Drop)]
pub struct CellForms {
    pub first: EndForms,
    pub last: EndForms,
    pub product: Form2,
    ghost product_small: { IsBounded2 (3 * (offset_limit * offset_limit)) product.c },
}

impl CellForms {
    /// Of the points `p` and `q` during cell `k` of the move's `scale` cells.
    pub fn of(sweep: &Sweep, p: &[i32; 3], q: &[i32; 3], k: u32, scale: u32) -> CellForms
        requires p { IsPoint p.now }
        requires q { IsPoint q.now }
        requires within { k < scale }
        requires scale { scale ≤ scale_limit }
        ensures first { AreEndForms result.first.u.c result.first.n.c result.first.d.c sweep.now p.now k (k + 1) scale }
        ensures last { AreEndForms result.last.u.c result.last.n.c result.last.d.c sweep.now q.now k (k + 1) scale }
        ensures product { result.product.c ≡ product_between sweep.now p.now q.now k (k + 1) scale }
    {
        let p_start = Pose::at_sample(sweep, p, k, scale);
        let p_end = Pose::at_sample(sweep, p, k + 1, scale);
        let q_start = Pose::at_sample(sweep, q, k, scale);
        let q_end = Pose::at_sample(sweep, q, k + 1, scale);
        CellForms {
            first: EndForms::between(&p_start, &p_end),
            last: EndForms::between(&q_start, &q_end),
            product: scalar_product_on_cell(
                &p_start.offset,
                &p_end.offset,
                &q_start.offset,
                &q_end.offset,
            ),
        }
    }

    /// Whether the points are behind the tip throughout: u is below 0.
    pub fn are_behind(&self) -> bool
        ensures { result ≡ rows_negative (columns21 self.now.first.u.c self.now.last.u.c) }
    {
        grid_of(&self.first.u, &self.last.u).all_negative()
    }
}
