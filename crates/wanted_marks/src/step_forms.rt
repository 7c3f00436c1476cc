ghost use Rattle.space.specs.Ranges.{IsWithin};
ghost use Rattle.bern_form.specs.Sizes.{axis_limit, offset_limit};
ghost use Rattle.wanted_marks.specs.GridForms.{IsStepBy};

use crate::moments::eight_products;
use bern_form::Form4;
use moment_forms::{Moments, heights};

/// What a step of the lattice along an axis adds on a whole move: to the moment, and to u; eight times the scalar product of the moment
/// of the first point and what the step adds to it; and four times the square of the latter.
#[derive(Drop)]
pub struct StepForms {
    pub moments: Moments,
    pub first: Form4,
    pub second: Form4,
    pub height: [i64; 3],
}

impl StepForms {
    /// Of a way, where the moment of the first point is given, and the axes a and c at both ends of the move. It is inlined into its
    /// calls, so that nothing is computed of the components of a way that are 0.
    #[inline(always)]
    pub fn along(way: &[i64; 3], start: &Moments, a: &[i64; 3], c: &[i64; 3]) -> StepForms
        requires way { IsWithin offset_limit way.now }
        requires a { IsWithin axis_limit a.now }
        requires c { IsWithin axis_limit c.now }
        ensures { IsStepBy result way.now start.now a.now c.now }
    {
        let moments = Moments::between(way, way, a, c);
        StepForms {
            first: Form4 {
                c: eight_products(start, &moments),
            },
            second: Form4 {
                c: moments.four_squares(),
            },
            height: heights(way, way, a, c),
            moments,
        }
    }
}
