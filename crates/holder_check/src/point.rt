ghost use Rattle.std.specs.Prelude.{◌≡◌, ◌^◌, ◌≤◌};
ghost use Rattle.space.specs.Ranges.{IsPoint};
ghost use Rattle.holder_check.specs.Holder.{holder_reach, is_holder_possible, is_holder_sure};

use axis_cells::{Mark, Sweep, plain_mark};
use bern_form::Slab;

/// What is known of a holder and one point. What is sure is possible too.
#[derive(Clone, Copy)]
pub struct PointMark {
    pub sure: bool,
    pub possible: bool,
}

/// How far from the tip a holder reaches along each axis.
pub fn holder_reach(holder: &Slab) -> i32
    ensures { result ≡ holder_reach holder.now }
{
    holder.hi + holder.dia
}

/// Whether a holder is sure to meet a point, and whether it may meet it, at the samples and on the cells of a depth. The holder is
/// the one slab of both stacks.
pub fn mark_of_point(sweep: &Sweep, holder: &Slab, point: [i32; 3], depth: u32) -> PointMark
    requires point { IsPoint point }
    requires depth { depth ≤ 10 }
    ensures sure { result.sure ≡ is_holder_sure holder.now sweep.now point (2 ^ depth) }
    ensures possible { result.possible ≡ is_holder_possible holder.now sweep.now point (2 ^ depth) }
{
    // Reading a field of the sweep and of the slab gives the prover their invariants.
    let _valid = &sweep.from;
    let _slab = &holder.lo;
    let slabs = [*holder];
    match plain_mark(sweep, &slabs, &slabs, holder_reach(holder), point, depth) {
        Mark::Removed => PointMark {
            sure: true,
            possible: true,
        },
        Mark::Possible => PointMark {
            sure: false,
            possible: true,
        },
        Mark::Clear => PointMark {
            sure: false,
            possible: false,
        },
    }
}
