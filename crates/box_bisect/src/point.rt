ghost use Rattle.std.specs.Prelude.{◌≡◌, ◌+◌, ◌*◌, ◌^◌, ◌<◌, ◌≤◌, ℕ, ℤ, List, length, pos, true};
ghost use Rattle.space.specs.Ranges.{IsPoint};
ghost use Rattle.space.specs.Sweeps.{SweepOf};
ghost use Rattle.bern_form.specs.Marks.{some_holds};
ghost use Rattle.bern_form.specs.Sizes.{scale_limit};
ghost use Rattle.cutter_slabs.specs.Meets.{MeetsLower, MeetsUpper};
ghost use Rattle.cutter_slabs.specs.Rising.{IsRising};
ghost use Rattle.cutter_slabs.specs.Stacks.{outer_stack};
ghost use Rattle.cutter_marks.specs.MarkBy.{is_possible_by, mark_by};
ghost use Rattle.box_bisect.specs.Between.{IsMarkBetween};
ghost use Rattle.box_bisect.specs.Boxes.{undecided_boxes, undecided_from};
ghost use Rattle.box_bisect.specs.Stretches.{AreFormsBetween};

use crate::search::{is_held_first, is_held_last, is_left, mark_between};
use crate::stretch::Stretch;
use axis_cells::{Mark, Sweep, cells_of, in_reach};
use bern_form::Slab;
use cutter_slabs::Stacks;
use std::marker::Brand;
use std::sync::ledger::{Blank, Ledger};
use vf_steps::Steps;

/// The mark of the point whose forms these are on a whole move of 2^`depth` cells. Where all outer slabs are excluded on the
/// whole it is clear; else both ends are tested, and then what is between them.
fn mark_of_whole<L: Ledger>(
    whole: &Stretch,
    inner: &[Slab],
    outer: &[Slab],
    scale: u32,
    depth: u32,
    steps: &mut Steps<L>,
) -> Mark
    requires scale { scale ≤ scale_limit }
    requires cells { scale ≡ 2 ^ depth }
    requires as_many { length inner.now ≤ length outer.now }
    requires inner { IsRising inner.now }
    requires outer { IsRising outer.now }
    ensures mark { (m : SweepOf) (p : List ℤ) → AreFormsBetween whole.now.u.c whole.now.n.c whole.now.d.c m p 0 scale scale
        → ((i : ℕ) → some_holds inner.now m p i scale ≡ true → some_holds outer.now m p i scale ≡ true)
        → IsMarkBetween result inner.now outer.now m p 0 scale scale }
    ensures cost { (m : SweepOf) (p : List ℤ) → AreFormsBetween whole.now.u.c whole.now.n.c whole.now.d.c m p 0 scale scale
        → ((i : ℕ) → some_holds inner.now m p i scale ≡ true → some_holds outer.now m p i scale ≡ true)
        → steps.new ≤ steps.old + length outer.now * (3 + 4 * undecided_from outer.now m p scale depth 0) }
{
    if !is_left(whole, outer, scale, steps) {
        return Mark::Clear;
    }
    if is_held_last(whole, inner, scale, steps) {
        return Mark::Removed;
    }
    if is_held_first(whole, inner, scale, steps) {
        return Mark::Removed;
    }
    mark_between(whole, inner, outer, scale, depth, steps)
}

/// The mark of a point by the stacks and the reach of a cutter, at the samples and on the cells of a depth, found by halving the
/// time of the move. A removed point is in the lower cutter at some rational time of the move, a clear one in the upper cutter at
/// none. A removed point would also be possible.
///
/// One step is the test of one slab at one sample or on one box in time. They are bounded by the boxes that are undecided.
pub fn mark_point<L: Ledger>(
    sweep: &Sweep,
    stacks: &Stacks,
    point: [i32; 3],
    depth: u32,
    steps: &mut Steps<L>,
) -> Mark
    requires point { IsPoint point }
    requires depth { depth ≤ 10 }
    ensures value { result ≡ mark_by stacks.now.cutter stacks.now.slabs sweep.now point (2 ^ depth) }
    ensures removed { result ≡ Mark.Removed → MeetsLower stacks.now.cutter sweep.now point }
    ensures clear { result ≡ Mark.Clear → ¬ MeetsUpper stacks.now.cutter sweep.now point }
    ensures possible { result ≡ Mark.Removed
        → is_possible_by stacks.now.cutter stacks.now.slabs sweep.now point (2 ^ depth) ≡ true }
    ensures cost { let outer = outer_stack stacks.now.cutter stacks.now.slabs in
        steps.new ≤ steps.old + length outer * (3 + 4 * undecided_boxes outer sweep.now point depth) }
{
    // Reading a field of the sweep gives the prover its invariant.
    let _valid = &sweep.from;
    let inner = stacks.inner();
    let outer = stacks.outer();
    let reach = stacks.reach();
    if !in_reach(sweep, reach, point) {
        return Mark::Clear;
    }
    let scale = cells_of(depth);
    let whole = Stretch::whole(sweep, &point, scale);
    mark_of_whole(&whole, inner, outer, scale, depth, steps)
}

/// The same with a counter that begins from a blank.
fn mark_point_from<L: Ledger>(
    sweep: &Sweep,
    stacks: &Stacks,
    point: [i32; 3],
    depth: u32,
    blank: Blank,
) -> Mark
    requires name { blank.name ≡ L.name }
    requires parts { blank.parts ≡ L.parts }
    requires some { 0 < L.parts }
    requires point { IsPoint point }
    requires depth { depth ≤ 10 }
    ensures value { result ≡ mark_by stacks.now.cutter stacks.now.slabs sweep.now point (2 ^ depth) }
    ensures removed { result ≡ Mark.Removed → MeetsLower stacks.now.cutter sweep.now point }
    ensures clear { result ≡ Mark.Clear → ¬ MeetsUpper stacks.now.cutter sweep.now point }
{
    let mut steps: Steps<L> = Steps::new(blank);
    mark_point(sweep, stacks, point, depth, &mut steps)
}

/// The same with nothing counted.
pub fn mark_point_uncounted(sweep: &Sweep, stacks: &Stacks, point: [i32; 3], depth: u32) -> Mark
    requires point { IsPoint point }
    requires depth { depth ≤ 10 }
    ensures value { result ≡ mark_by stacks.now.cutter stacks.now.slabs sweep.now point (2 ^ depth) }
    ensures removed { result ≡ Mark.Removed → MeetsLower stacks.now.cutter sweep.now point }
    ensures clear { result ≡ Mark.Clear → ¬ MeetsUpper stacks.now.cutter sweep.now point }
{
    mark_point_from::<Brand>(sweep, stacks, point, depth, Blank::new(1))
}
