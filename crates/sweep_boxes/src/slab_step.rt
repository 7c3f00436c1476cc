ghost use Rattle.std.specs.Prelude.{◌<◌, ◌*◌, ◌≤ℤ◌, length, pos};
ghost use Rattle.cutter_slabs.specs.Rising.{IsRising};
ghost use Rattle.sweep_boxes.specs.BandTerms.{IsStepAt};

use bern_form::Slab;

/// A place in a stack of slabs: those in front of it are no wider than `widest`, the others begin at `begin` or higher.
#[derive(Drop)]
pub struct SlabStep {
    pub begin: i32,
    pub widest: i32,
    ghost begin_some: { pos 0 ≤ℤ begin },
    ghost begin_small: { begin ≤ℤ pos 300000 },
    ghost widest_some: { pos 0 ≤ℤ widest },
    ghost widest_small: { widest ≤ℤ pos 200000 },
}

/// The place of a slab that lies on another one.
pub fn step_at(slabs: &[Slab], k: usize) -> SlabStep
    requires rising { IsRising slabs.now }
    requires after { 0 < k }
    requires within { k < length slabs.now }
    ensures { IsStepAt result.begin result.widest slabs.now }
{
    let upper = &slabs[k];
    let lower = &slabs[k - 1];
    SlabStep {
        begin: upper.lo,
        widest: lower.dia,
    }
}
