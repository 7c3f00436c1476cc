ghost use Rattle.std.specs.Prelude.{◌≡◌, ◌^◌, ◌≤◌, true};
ghost use Rattle.space.specs.Ranges.{IsPoint};
ghost use Rattle.cutter_slabs.specs.Meets.{MeetsLower, MeetsUpper};
ghost use Rattle.cutter_marks.specs.MarkBy.{is_possible_by, mark_by};

use axis_cells::{Mark, Sweep, plain_mark};
use cutter_slabs::Stacks;

/// The mark of a point by the stacks and the reach of a cutter, at the samples and on the cells of a depth. A removed point is
/// in the lower cutter at some rational time of the move, a clear one in the upper cutter at none. A removed point would also
/// be possible.
pub fn mark_of(sweep: &Sweep, stacks: &Stacks, point: [i32; 3], depth: u32) -> Mark
    requires point { IsPoint point }
    requires depth { depth ≤ 10 }
    ensures value { result ≡ mark_by stacks.now.cutter stacks.now.slabs sweep.now point (2 ^ depth) }
    ensures removed { result ≡ Mark.Removed → MeetsLower stacks.now.cutter sweep.now point }
    ensures clear { result ≡ Mark.Clear → ¬ MeetsUpper stacks.now.cutter sweep.now point }
    ensures possible { result ≡ Mark.Removed → is_possible_by stacks.now.cutter stacks.now.slabs sweep.now point (2 ^ depth) ≡ true }
{
    // Reading a field of the sweep gives the prover its invariant.
    let _valid = &sweep.from;
    let inner = stacks.inner();
    let outer = stacks.outer();
    let reach = stacks.reach();
    plain_mark(sweep, inner, outer, reach, point, depth)
}
