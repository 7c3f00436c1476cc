ghost use Rattle.std.specs.Prelude.{◌≡◌, ◌+◌, ◌-◌, ◌*◌, ◌^◌, ◌≤◌};
ghost use Rattle.bern_form.specs.Cells.{dot_on_cell};
ghost use Rattle.bern_form.specs.Sizes.{IsBounded2, offset_limit, scale_limit};
ghost use Rattle.ray_grid.specs.Lattice.{IsRay, point_of, points_of};
ghost use Rattle.box_bisect.specs.RayBoxes.{IsBox};
ghost use Rattle.ray_boxes.specs.Boxes.{product_between};
ghost use Rattle.box_bisect.specs.Stretches.{AreFormsBetween};

use crate::ray::ray_box::RayBox;
use crate::stretch::Stretch;
use axis_cells::{Pose, Sweep, cells_of, scalar_product_on_cell};
use bern_form::Form2;
use ray_grid::{Grid, Ray};

/// The forms of the first and of the last point of a box, and the scalar product of their offsets.
#[derive(Drop)]
pub struct BoxForms {
    pub first: Stretch,
    pub last: Stretch,
    pub product: Form2,
    ghost product_small: { IsBounded2 (3 * (offset_limit * offset_limit)) product.c },
}

/// The forms of a point between two samples.
#[inline]
fn stretch_between(start: &Pose, end: &Pose) -> Stretch
    ensures u { result.u.c ≡ dot_on_cell start.now.offset end.now.offset start.now.axis end.now.axis }
    ensures n { result.n.c ≡ dot_on_cell start.now.axis end.now.axis start.now.axis end.now.axis }
    ensures d { result.d.c ≡ dot_on_cell start.now.offset end.now.offset start.now.offset end.now.offset }
{
    Stretch {
        u: scalar_product_on_cell(&start.offset, &end.offset, &start.axis, &end.axis),
        n: scalar_product_on_cell(&start.axis, &end.axis, &start.axis, &end.axis),
        d: scalar_product_on_cell(&start.offset, &end.offset, &start.offset, &end.offset),
    }
}

impl BoxForms {
    /// Of the first and the last point of a box on a ray, between the samples at both ends of the box; the move has `scale` cells.
    pub fn of(grid: &Grid, ray: &Ray, sweep: &Sweep, scale: u32, cell_box: RayBox) -> BoxForms
        requires ray { IsRay grid.now ray.now }
        requires scale { scale ≤ scale_limit }
        requires cell_box { IsBox cell_box.levels cell_box.first cell_box.from cell_box.to scale (points_of grid.now ray.now.family) }
        ensures first { AreFormsBetween result.first.u.c result.first.n.c result.first.d.c
            sweep.now (point_of grid.now ray.now cell_box.from) cell_box.first (cell_box.first + 2 ^ cell_box.levels) scale }
        ensures last { AreFormsBetween result.last.u.c result.last.n.c result.last.d.c
            sweep.now (point_of grid.now ray.now (cell_box.to - 1)) cell_box.first (cell_box.first + 2 ^ cell_box.levels) scale }
        ensures product { let point = point_of grid.now ray.now in result.product.c
            ≡ product_between sweep.now (point cell_box.from) (point (cell_box.to - 1))
            cell_box.first (cell_box.first + 2 ^ cell_box.levels) scale }
    {
        let k = cell_box.first + cells_of(cell_box.levels);
        let p = grid.point(ray, cell_box.from);
        let p_start = Pose::at_sample(sweep, &p, cell_box.first, scale);
        let p_end = Pose::at_sample(sweep, &p, k, scale);
        let q = grid.point(ray, cell_box.to - 1);
        let q_start = Pose::at_sample(sweep, &q, cell_box.first, scale);
        let q_end = Pose::at_sample(sweep, &q, k, scale);
        BoxForms {
            first: stretch_between(&p_start, &p_end),
            last: stretch_between(&q_start, &q_end),
            product: scalar_product_on_cell(
                &p_start.offset,
                &p_end.offset,
                &q_start.offset,
                &q_end.offset,
            ),
        }
    }
}
