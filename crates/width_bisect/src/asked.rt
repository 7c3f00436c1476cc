ghost use Rattle.std.specs.Prelude.{◌≡◌};
ghost use Rattle.cutter_slabs.specs.Rising.{IsRising};
ghost use Rattle.cutter_slabs.specs.Stacks.{inner_stack, outer_stack};
ghost use Rattle.width_bisect.specs.Asked.{slabs_for};

use bern_form::Slab;
use cutter_slabs::Stacks;

/// What a caller wants to know of a point: its whole mark, or only whether it is sure, which takes less work.
#[derive(Clone, Copy)]
pub enum Asked {
    Whole,
    Sure,
}

/// The slabs that are excluded for it. Where all inner slabs are excluded none holds the point at a sample, and they are on more
/// stretches than the outer ones.
#[inline]
pub fn slabs_for(stacks: &Stacks, asked: Asked) -> &[Slab]
    ensures stack { let s = stacks.now in result.now ≡ slabs_for asked (inner_stack s.cutter s.slabs) (outer_stack s.cutter s.slabs) }
    ensures rising { IsRising result.now }
{
    match asked {
        Asked::Whole => stacks.outer(),
        Asked::Sure => stacks.inner(),
    }
}
