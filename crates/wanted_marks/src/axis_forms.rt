ghost use Rattle.std.specs.Prelude.{◌≡◌, ◌*◌, ◌≤◌, true, IsTrue};
ghost use Rattle.space.specs.Ranges.{IsWithin};
ghost use Rattle.space.specs.Vectors.{at};
ghost use Rattle.bern_form.specs.Forms.{all_positive, lifted};
ghost use Rattle.bern_form.specs.Sizes.{IsBounded2, axis_limit, scale_limit};
ghost use Rattle.wanted_marks.specs.Limits.{all_not_below_zero};
ghost use Rattle.wanted_marks.specs.Peaks.{IsLeast};
ghost use Rattle.wanted_marks.specs.Widths.{IsAxisForms};

use crate::limits::raised_of;
use crate::peak::least_of;
use crate::scaled::scaled_axis;
use axis_cells::{Sweep, scalar_product_on_cell};
use bern_form::Form2;

/// How the axis turns on a move: the axis at both ends, times the scale, n, the square of its length between them, the least
/// that a point's height is compared with, and n raised to degree 4 for a slab's limits.
#[derive(Drop)]
pub struct AxisForms {
    pub first: [i64; 3],
    pub last: [i64; 3],
    pub n: Form2,
    pub least: i64,
    pub raised: [i64; 5],
    ghost first_within: { IsWithin axis_limit first },
    ghost last_within: { IsWithin axis_limit last },
    ghost n_small: { IsBounded2 (3 * (axis_limit * axis_limit)) n.c },
    ghost least_is: { IsLeast least n.c },
    ghost raised_is: { raised ≡ all_not_below_zero (lifted n.c) },
}

impl AxisForms {
    /// Of a move at this scale, at most 1024. Components of the axis are 1/100,000.
    pub fn of_sweep(sweep: &Sweep, scale: u32) -> AxisForms
        requires { scale ≤ scale_limit }
        ensures { IsAxisForms result.first result.last result.n.c sweep.now scale }
    {
        let first = scaled_axis(scale, &sweep.axis_from);
        let last = scaled_axis(scale, &sweep.axis_to);
        let n = scalar_product_on_cell(&first, &last, &first, &last);
        let least = least_of(&n);
        let raised = raised_of(&n);
        AxisForms {
            first,
            last,
            n,
            least,
            raised,
        }
    }

    /// Whether each coefficient of n is above 0, as it is where the axis turns by less than a right angle. So are those of n raised to
    /// degree 4.
    #[inline]
    pub fn is_open(&self) -> bool
        ensures { IsTrue result → all_positive (lifted self.now.n.c) ≡ true }
    {
        self.least > 0
    }

    /// n at the last sample. It fits 64 bits.
    #[inline]
    pub fn last_square(&self) -> i64
        ensures { result ≡ at self.now.n.c 2 }
    {
        self.n.c[2] as i64
    }

    /// n at the first sample. It fits 64 bits.
    #[inline]
    pub fn first_square(&self) -> i64
        ensures { result ≡ at self.now.n.c 0 }
    {
        self.n.c[0] as i64
    }
}
