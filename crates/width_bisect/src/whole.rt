ghost use Rattle.std.specs.Prelude.{◌≡◌, ℕ, ℤ, List, ◌+◌, ◌^◌, ◌<◌, ◌≤◌, length, not, true};
ghost use Rattle.space.specs.Sweeps.{SweepOf};
ghost use Rattle.bern_form.specs.Between.{d_between};
ghost use Rattle.bern_form.specs.Forms.{all_positive, lifted, product22};
ghost use Rattle.bern_form.specs.Marks.{some_holds};
ghost use Rattle.bern_form.specs.Sizes.{scale_limit};
ghost use Rattle.cutter_slabs.specs.Rising.{IsRising};
ghost use Rattle.box_bisect.specs.Between.{IsMarkBetween};
ghost use Rattle.box_bisect.specs.SlabTests.{TurnsAt, TurnsBetween, is_below_by, is_unexcluded_with};
ghost use Rattle.width_bisect.specs.Early.{lows_of};
ghost use Rattle.width_bisect.specs.Forms.{AreWidthForms};
ghost use Rattle.width_bisect.specs.Searches.{is_not_below};

use crate::lists::Lists;
use crate::sample::Sample;
use crate::search::{is_possible, is_removed, joined, mark_between, mark_by_halves};
use crate::slab_search::walk_up;
use crate::stretch::Stretch;
use axis_cells::Mark;
use bern_form::Slab;

/// The number of the slab above the highest that the point isn't below throughout the stretch. It is looked for at the last sample,
/// which costs one product a slab, from any number on, and from there upwards.
#[inline]
pub fn reached_on_whole(whole: &Stretch, lists: &Lists, slabs: &[Slab], near: usize) -> usize
    requires raised { lists.now.raised ≡ lifted whole.now.n }
    requires height { lists.now.height ≡ product22 whole.now.u whole.now.u }
    ensures { let l = lists.now in TurnsAt (λ s. not (is_below_by l.scale l.raised l.height s)) slabs.now result }
{
    let last = Sample::last_of(whole, lists.scale);
    walk_up(lists, slabs, last.reached(slabs, near))
}

/// The mark of the point whose forms these are on a stretch of 2^`levels` cells: both ends are tested, and then what is between them. Where
/// that is one cell, some outer slab is not excluded on it. n raised to degree 4 is above 0, and the point is below the outer slab with
/// number `high` throughout, where there is one. What an outer slab holds at an end is Possible, and it is only tested whether an inner one
/// holds it between: so it is with most that lies right ahead of a tool that moves on, and mostly all inner slabs are excluded there.
pub fn mark_of_whole(
    whole: &Stretch,
    inner: &[Slab],
    outer: &[Slab],
    scale: u32,
    high: usize,
    levels: u32,
) -> Mark
    requires scale { scale ≤ scale_limit }
    requires some { 0 < scale }
    requires inner { IsRising inner.now }
    requires outer { IsRising outer.now }
    requires lows { lows_of inner.now ≡ lows_of outer.now }
    requires positive { all_positive (lifted whole.now.n) ≡ true }
    requires high { TurnsBetween (is_not_below scale whole.now.u whole.now.n) outer.now 0 high }
    ensures { (m : SweepOf) (p : List ℤ) (j : ℕ)
        → AreWidthForms whole.now.u whole.now.n whole.now.width m p j (j + 2 ^ levels) scale
        → ((i : ℕ) → some_holds inner.now m p i scale ≡ true → some_holds outer.now m p i scale ≡ true)
        → (levels ≡ 0 → is_unexcluded_with outer.now scale whole.now.u whole.now.n (d_between m p j (j + 2 ^ levels) scale) ≡ true)
        → IsMarkBetween result inner.now outer.now m p j (j + 2 ^ levels) scale }
{
    let last = Sample::last_of(whole, scale).mark(inner, outer, high);
    if is_removed(last) {
        return Mark::Removed;
    }
    let first = Sample::first_of(whole, scale).mark(inner, outer, high);
    if is_removed(first) {
        return Mark::Removed;
    }
    let known = joined(first, last);
    if is_possible(known) {
        let found = mark_between(whole, inner, inner, scale, high, levels);
        return joined(found, known);
    }
    mark_by_halves(whole, inner, outer, scale, high, levels)
}
