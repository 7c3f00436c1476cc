ghost use Rattle.std.specs.Prelude.{◌≡◌, ◌+◌, ◌≤◌, Bool};
ghost use Rattle.bern_form.specs.Slab.{SlabSize};
ghost use Rattle.box_bisect.specs.SlabTests.{TurnsAt, TurnsBetween};

use bern_form::Slab;
use std::sync::ledger::Ledger;
use vf_steps::Steps;

/// What the slabs of a stack are tested by from the lowest upwards.
pub trait Reaches {
    ghost reached: { Self → SlabSize → Bool };

    /// Whether it reaches the slab.
    fn reaches(&self, slab: &Slab) -> bool
        ensures { result ≡ reached self.now slab.now };
}

/// Where the test turns from the lower slabs to the higher ones, by halving what is between two numbers; each slab that is tested
/// is a step.
pub fn first_unreached<T: Reaches, L: Ledger>(
    test: &T,
    slabs: &[Slab],
    low: usize,
    high: usize,
    steps: &mut Steps<L>,
) -> usize
    requires ordered { low ≤ high }
    requires between { TurnsBetween (T.reached test.now) slabs.now low high }
    ensures first_unreached { TurnsAt (T.reached test.now) slabs.now result }
    ensures cost { steps.new + low ≤ steps.old + high }
{
    if low == high {
        return low;
    }
    steps.tick();
    let middle = low + (high - low) / 2;
    if test.reaches(&slabs[middle]) {
        return first_unreached(test, slabs, middle + 1, high, steps);
    }
    first_unreached(test, slabs, low, middle, steps)
}
