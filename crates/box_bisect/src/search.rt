ghost use Rattle.std.specs.Prelude.{◌≡◌, ℕ, ℤ, List, ◌+◌, ◌*◌, ◌^◌, ◌≤◌, length};
ghost use Rattle.space.specs.Sweeps.{SweepOf};
ghost use Rattle.bern_form.specs.Sizes.{scale_limit};
ghost use Rattle.cutter_slabs.specs.Rising.{IsRising};
ghost use Rattle.box_bisect.specs.Between.{IsMarkBetween, IsSearched};
ghost use Rattle.box_bisect.specs.SlabTests.{is_held_with, is_unexcluded_with};
ghost use Rattle.box_bisect.specs.Boxes.{undecided_from};

use crate::held::is_covered_by_some;
use crate::joined::{is_removed, joined};
use crate::limits::Limits;
use crate::stretch::Stretch;
use axis_cells::{Mark, Sample};
use bern_form::Slab;
use std::sync::ledger::Ledger;
use vf_steps::Steps;

/// Whether some of the slabs isn't excluded on the stretch.
#[inline]
pub fn is_left<L: Ledger>(
    stretch: &Stretch,
    slabs: &[Slab],
    scale: u32,
    steps: &mut Steps<L>,
) -> bool
    requires scale { scale ≤ scale_limit }
    requires rising { IsRising slabs.now }
    ensures left { result ≡ is_unexcluded_with slabs.now scale stretch.now.u.c stretch.now.n.c stretch.now.d.c }
    ensures cost { steps.new ≤ steps.old + length slabs.now }
{
    Limits::of_stretch(stretch, scale).leaves_some(slabs, steps)
}

/// Whether some of the slabs holds the point at the last sample of the stretch.
#[inline]
pub fn is_held_last<L: Ledger>(
    stretch: &Stretch,
    slabs: &[Slab],
    scale: u32,
    steps: &mut Steps<L>,
) -> bool
    requires scale { scale ≤ scale_limit }
    requires rising { IsRising slabs.now }
    ensures held { result ≡ is_held_with 2 slabs.now scale stretch.now.u.c stretch.now.n.c stretch.now.d.c }
    ensures cost { steps.new ≤ steps.old + length slabs.now }
{
    let sample = Sample::of(scale, stretch.u.c[2], stretch.n.c[2], stretch.d.c[2]);
    is_covered_by_some(&sample, slabs, steps)
}

/// The same at the first sample.
#[inline]
pub fn is_held_first<L: Ledger>(
    stretch: &Stretch,
    slabs: &[Slab],
    scale: u32,
    steps: &mut Steps<L>,
) -> bool
    requires scale { scale ≤ scale_limit }
    requires rising { IsRising slabs.now }
    ensures held { result ≡ is_held_with 0 slabs.now scale stretch.now.u.c stretch.now.n.c stretch.now.d.c }
    ensures cost { steps.new ≤ steps.old + length slabs.now }
{
    let sample = Sample::of(scale, stretch.u.c[0], stretch.n.c[0], stretch.d.c[0]);
    is_covered_by_some(&sample, slabs, steps)
}

/// The mark of the point whose forms these are on a stretch of 2^`levels` cells, at whose two ends no inner slab holds it. Where
/// all outer slabs are excluded on the stretch, they are on all its cells, and none of its samples need be tested. Else the sample
/// in the middle is tested, and then both halves.
pub fn mark_between<L: Ledger>(
    stretch: &Stretch,
    inner: &[Slab],
    outer: &[Slab],
    scale: u32,
    levels: u32,
    steps: &mut Steps<L>,
) -> Mark
    requires scale { scale ≤ scale_limit }
    requires as_many { length inner.now ≤ length outer.now }
    requires inner { IsRising inner.now }
    requires outer { IsRising outer.now }
    ensures mark { let s = stretch.now in (m : SweepOf) (p : List ℤ) (j : ℕ)
        → IsSearched inner.now outer.now s.u.c s.n.c s.d.c m p scale levels j
        → IsMarkBetween result inner.now outer.now m p j (j + 2 ^ levels) scale }
    ensures cost { let s = stretch.now in (m : SweepOf) (p : List ℤ) (j : ℕ)
        → IsSearched inner.now outer.now s.u.c s.n.c s.d.c m p scale levels j
        → steps.new ≤ steps.old + length outer.now * (1 + 3 * undecided_from outer.now m p scale levels j) }
{
    if !is_left(stretch, outer, scale, steps) {
        return Mark::Clear;
    }
    if levels == 0 {
        return Mark::Possible;
    }
    let first = stretch.first_half();
    if is_held_last(&first, inner, scale, steps) {
        return Mark::Removed;
    }
    let late = mark_between(&stretch.last_half(), inner, outer, scale, levels - 1, steps);
    if is_removed(late) {
        return Mark::Removed;
    }
    let early = mark_between(&first, inner, outer, scale, levels - 1, steps);
    joined(early, late)
}
