ghost use Rattle.std.specs.Prelude.{◌≡◌, ◌*◌, ◌≤◌};
ghost use Rattle.space.specs.Ranges.{IsPoint};
ghost use Rattle.bern_form.specs.Sizes.{IsBounded2, axis_limit, offset_limit, scale_limit};
ghost use Rattle.box_bisect.specs.Halved.{first_half, last_half};
ghost use Rattle.box_bisect.specs.Stretches.{AreFormsBetween};

use crate::halves::{first_half, last_half};
use axis_cells::{Pose, Sweep, scalar_product_on_cell};
use bern_form::Form2;

/// What the tests of a point between two samples of a move rest on. By the point's offset p from the tip and the axis a, which
/// are linear there, u = p.a, n = |a|^2 and d = |p|^2 are forms of degree 2. Neither the move nor the point is needed any more:
/// the forms of each half come from these.
#[derive(Drop)]
pub struct Stretch {
    pub u: Form2,
    pub n: Form2,
    pub d: Form2,
    ghost u_small: { IsBounded2 (3 * (offset_limit * axis_limit)) u.c },
    ghost n_small: { IsBounded2 (3 * (axis_limit * axis_limit)) n.c },
    ghost d_small: { IsBounded2 (3 * (offset_limit * offset_limit)) d.c },
}

impl Stretch {
    /// The whole move, from the sample 0 to the sample `scale`.
    pub fn whole(sweep: &Sweep, point: &[i32; 3], scale: u32) -> Stretch
        requires point { IsPoint point.now }
        requires scale { scale ≤ scale_limit }
        ensures { AreFormsBetween result.u.c result.n.c result.d.c sweep.now point.now 0 scale scale }
    {
        let first = Pose::at_sample(sweep, point, 0, scale);
        let last = Pose::at_sample(sweep, point, scale, scale);
        Stretch {
            u: scalar_product_on_cell(&first.offset, &last.offset, &first.axis, &last.axis),
            n: scalar_product_on_cell(&first.axis, &last.axis, &first.axis, &last.axis),
            d: scalar_product_on_cell(&first.offset, &last.offset, &first.offset, &last.offset),
        }
    }

    /// From the first sample to the one in the middle.
    #[inline]
    pub fn first_half(&self) -> Stretch
        ensures u { result.u.c ≡ first_half self.now.u.c }
        ensures n { result.n.c ≡ first_half self.now.n.c }
        ensures d { result.d.c ≡ first_half self.now.d.c }
    {
        Stretch {
            u: first_half(&self.u),
            n: first_half(&self.n),
            d: first_half(&self.d),
        }
    }

    /// From the sample in the middle to the last one.
    #[inline]
    pub fn last_half(&self) -> Stretch
        ensures u { result.u.c ≡ last_half self.now.u.c }
        ensures n { result.n.c ≡ last_half self.now.n.c }
        ensures d { result.d.c ≡ last_half self.now.d.c }
    {
        Stretch {
            u: last_half(&self.u),
            n: last_half(&self.n),
            d: last_half(&self.d),
        }
    }
}
