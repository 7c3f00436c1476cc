ghost use Rattle.std.specs.Prelude.{◌≡◌, ℕ, ℤ, List, ◌+◌, ◌^◌, ◌≤◌, length, true};
ghost use Rattle.space.specs.Sweeps.{SweepOf};
ghost use Rattle.bern_form.specs.Between.{d_between};
ghost use Rattle.bern_form.specs.Sizes.{scale_limit};
ghost use Rattle.cutter_slabs.specs.Rising.{IsRising};
ghost use Rattle.box_bisect.specs.Between.{IsMarkBetween, is_removed_mark, joined_mark};
ghost use Rattle.box_bisect.specs.RayMarks.{is_possible_mark};
ghost use Rattle.box_bisect.specs.SlabTests.{is_unexcluded_with};
ghost use Rattle.width_bisect.specs.Early.{lows_of, slabs_after};
ghost use Rattle.width_bisect.specs.Searches.{IsWidthSearch};

use crate::lists::Lists;
use crate::sample::Sample;
use crate::slab_search::walk_down;
use crate::stretch::Stretch;
use axis_cells::Mark;
use bern_form::Slab;

/// The mark of the point whose forms these are on a stretch of 2^`levels` cells, at whose two ends no inner slab holds it. The point
/// is below the outer slab with the number `high` throughout, where there is one. Where all outer slabs are excluded on the stretch,
/// they are on all its cells, and none of its samples need be tested.
#[cycle(search)]
pub fn mark_between(
    stretch: &Stretch,
    inner: &[Slab],
    outer: &[Slab],
    scale: u32,
    high: usize,
    levels: u32,
) -> Mark
    requires scale { scale ≤ scale_limit }
    requires high { high ≤ length outer.now }
    requires inner { IsRising inner.now }
    requires outer { IsRising outer.now }
    requires lows { lows_of inner.now ≡ lows_of outer.now }
    ensures { let s = stretch.now in (m : SweepOf) (p : List ℤ) (j : ℕ)
        → IsWidthSearch inner.now outer.now s.u s.n s.width m p scale high levels j
        → IsMarkBetween result inner.now outer.now m p j (j + 2 ^ levels) scale }
{
    if stretch.is_behind() {
        return Mark::Clear;
    }
    let lists = Lists::of_stretch(stretch, scale);
    if lists.are_beside(outer, high, &stretch.width) {
        return Mark::Clear;
    }
    let reached = walk_down(&lists, outer, high);
    if !lists.leaves_some(outer, reached, &stretch.width) {
        return Mark::Clear;
    }
    mark_by_halves(stretch, inner, outer, scale, reached, levels)
}

/// The same, where it isn't tested whether all outer slabs are excluded on the stretch. On a cell some outer slab is not, so it is
/// Possible. Else the sample in the middle is tested, and then both halves, the late one first: a tool that moves on takes nearly all of
/// what is new near the end of its move. What an outer slab holds in the middle is Possible, so of both halves it is only tested whether
/// an inner one holds it.
#[cycle(search)]
pub fn mark_by_halves(
    stretch: &Stretch,
    inner: &[Slab],
    outer: &[Slab],
    scale: u32,
    high: usize,
    levels: u32,
) -> Mark
    requires scale { scale ≤ scale_limit }
    requires high { high ≤ length outer.now }
    requires inner { IsRising inner.now }
    requires outer { IsRising outer.now }
    requires lows { lows_of inner.now ≡ lows_of outer.now }
    ensures { let s = stretch.now in (m : SweepOf) (p : List ℤ) (j : ℕ)
        → IsWidthSearch inner.now outer.now s.u s.n s.width m p scale high levels j
        → (levels ≡ 0 → is_unexcluded_with outer.now scale s.u s.n (d_between m p j (j + 2 ^ levels) scale) ≡ true)
        → IsMarkBetween result inner.now outer.now m p j (j + 2 ^ levels) scale }
{
    if levels == 0 {
        return Mark::Possible;
    }
    let first = stretch.first_half();
    let middle = Sample::last_of(&first, scale).mark(inner, outer, high);
    if is_removed(middle) {
        return Mark::Removed;
    }
    let last = stretch.last_half();
    let late_slabs = slabs_after(middle, inner, outer);
    let found = mark_between(&last, inner, late_slabs, scale, high, levels - 1);
    let late = joined(found, middle);
    if is_removed(late) {
        return Mark::Removed;
    }
    let early_slabs = slabs_after(late, inner, outer);
    let early = mark_between(&first, inner, early_slabs, scale, high, levels - 1);
    joined(early, late)
}

/// The slabs that are excluded once a mark is known. Where that is Possible the whole is that at least, and of what is left it is only
/// tested whether some inner slab holds the point: the inner slabs are excluded on more.
#[inline]
fn slabs_after<'a>(known: Mark, inner: &'a [Slab], outer: &'a [Slab]) -> &'a [Slab]
    ensures { result.now ≡ slabs_after known inner.now outer.now }
{
    match known {
        Mark::Possible => inner,
        Mark::Removed => outer,
        Mark::Clear => outer,
    }
}

/// The greater of two marks, of which the second isn't Removed.
#[inline]
pub fn joined(early: Mark, late: Mark) -> Mark
    ensures { result ≡ joined_mark early late }
{
    match early {
        Mark::Removed => Mark::Removed,
        Mark::Possible => Mark::Possible,
        Mark::Clear => late,
    }
}

/// Whether a mark is Removed.
#[inline]
pub fn is_removed(mark: Mark) -> bool
    ensures { result ≡ is_removed_mark mark }
{
    match mark {
        Mark::Removed => true,
        Mark::Possible => false,
        Mark::Clear => false,
    }
}

/// Whether a mark is Possible or Removed.
#[inline]
pub fn is_possible(mark: Mark) -> bool
    ensures { result ≡ is_possible_mark mark }
{
    match mark {
        Mark::Removed => true,
        Mark::Possible => true,
        Mark::Clear => false,
    }
}
