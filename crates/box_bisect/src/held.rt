ghost use Rattle.std.specs.Prelude.{◌≡◌, ◌+◌, ◌≤◌, length, pos};
ghost use Rattle.cutter_slabs.specs.Rising.{IsRising};
ghost use Rattle.box_bisect.specs.SlabTests.{is_reached, some_covers};

use crate::slab_search::{Reaches, first_unreached};
use axis_cells::Sample;
use bern_form::Slab;
use std::sync::ledger::Ledger;
use vf_steps::Steps;

impl Reaches for Sample {
    ghost reached = { λ at. is_reached (pos at.scale) at.u at.n };

    /// Whether the point is as high as the slab begins, where it is ahead of the tip.
    #[inline]
    fn reaches(&self, slab: &Slab) -> bool {
        self.squared(slab.lo) <= self.u * self.u
    }
}

/// Whether some of the slabs holds the point at this sample. The highest that it reaches decides: the point is below the ones above
/// that, and those below that are no wider. Each slab that is tested is a step.
pub fn is_covered_by_some<L: Ledger>(sample: &Sample, slabs: &[Slab], steps: &mut Steps<L>) -> bool
    requires { IsRising slabs.now }
    ensures covered { result ≡ some_covers (pos sample.now.scale) sample.now.u sample.now.n sample.now.w slabs.now }
    ensures cost { steps.new ≤ steps.old + length slabs.now }
{
    if sample.u < 0 {
        return false;
    }
    let reached = first_unreached(sample, slabs, 0, slabs.len(), steps);
    if reached == 0 {
        return false;
    }
    sample.is_covered_by(&slabs[reached - 1])
}
