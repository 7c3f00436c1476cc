ghost use Rattle.std.specs.Prelude.{◌≡◌, ℕ, ◌+◌, ◌^◌, ◌<◌, ◌≤◌, false, true};
ghost use Rattle.space.specs.Ranges.{IsPoint};
ghost use Rattle.bern_form.specs.Between.{d_between};
ghost use Rattle.bern_form.specs.Forms.{all_negative, all_positive, lifted};
ghost use Rattle.bern_form.specs.Sizes.{scale_limit};
ghost use Rattle.cutter_slabs.specs.Rising.{IsRising};
ghost use Rattle.cutter_slabs.specs.Stacks.{inner_stack, outer_stack};
ghost use Rattle.cutter_marks.specs.MarkBy.{mark_by};
ghost use Rattle.box_bisect.specs.SlabTests.{TurnsBetween, is_unexcluded_with};
ghost use Rattle.width_bisect.specs.Asked.{IsAnswer, slabs_for};
ghost use Rattle.width_bisect.specs.Below.{IsBelowFrom};
ghost use Rattle.width_bisect.specs.Early.{lows_of};
ghost use Rattle.width_bisect.specs.Forms.{AreWidthForms};
ghost use Rattle.width_bisect.specs.Parts.{IsOpenPart};
ghost use Rattle.width_bisect.specs.Searches.{is_not_below};

use crate::asked::{Asked, slabs_for};
use crate::forms::WholeForms;
use crate::lists::Lists;
use crate::stretch::Stretch;
use crate::whole::{mark_of_whole, reached_on_whole};
use axis_cells::{Mark, Sweep, cells_of, in_reach};
use bern_form::Slab;
use box_bisect::mark_point_uncounted;
use cutter_slabs::Stacks;

/// The answer for a point that its forms alone don't show to be clear: it is clear where it is out of reach, and else the part,
/// of which these are the forms, is halved. The slabs are those that are excluded for `asked`, and the point is below the one with
/// the number `high` throughout, where there is one. Where the part is one cell, some slab isn't excluded on it.
// Inlined into both its callers: a call here costs more than it saves.
#[inline(always)]
fn mark_in_reach(
    sweep: &Sweep,
    stacks: &Stacks,
    point: [i32; 3],
    part: &Stretch,
    slabs: &[Slab],
    scale: u32,
    high: usize,
    levels: u32,
) -> Mark
    requires some { 0 < scale }
    requires scale { scale ≤ scale_limit }
    requires rising { IsRising slabs.now }
    requires lows { lows_of (inner_stack stacks.now.cutter stacks.now.slabs) ≡ lows_of slabs.now }
    requires part { let w = part.now in IsOpenPart (outer_stack stacks.now.cutter stacks.now.slabs) w.u w.n w.width sweep.now point
        scale levels }
    requires left { let w = part.now in (j : ℕ) → AreWidthForms w.u w.n w.width sweep.now point j (j + 2 ^ levels) scale → levels ≡ 0
        → is_unexcluded_with slabs.now scale w.u w.n (d_between sweep.now point j (j + 2 ^ levels) scale) ≡ true }
    requires positive { all_positive (lifted part.now.n) ≡ true }
    requires high { TurnsBetween (is_not_below scale part.now.u part.now.n) slabs.now 0 high }
    ensures { let s = stacks.now in (asked : Asked)
        → slabs.now ≡ slabs_for asked (inner_stack s.cutter s.slabs) (outer_stack s.cutter s.slabs)
        → IsAnswer asked result (mark_by s.cutter s.slabs sweep.now point scale) }
{
    // Reading a field of the sweep gives the prover its invariant.
    let _valid = &sweep.from;
    let inner = stacks.inner();
    let reach = stacks.reach();
    if !in_reach(sweep, reach, point) {
        return Mark::Clear;
    }
    mark_of_whole(part, inner, slabs, scale, high, levels)
}

/// The answer for a point that is not behind the tip throughout the part.
#[inline]
fn mark_ahead(
    sweep: &Sweep,
    stacks: &Stacks,
    point: [i32; 3],
    forms: &WholeForms,
    levels: u32,
    depth: u32,
    near: &mut usize,
    asked: Asked,
) -> Mark
    requires point { IsPoint point }
    requires depth { depth ≤ 10 }
    requires part { IsOpenPart (outer_stack stacks.now.cutter stacks.now.slabs) forms.now.u.c forms.now.n.c forms.now.width.c
        sweep.now point (2 ^ depth) levels }
    requires ahead { all_negative forms.now.u.c ≡ false }
    ensures { IsAnswer asked result (mark_by stacks.now.cutter stacks.now.slabs sweep.now point (2 ^ depth)) }
{
    // Reading a field of the sweep gives the prover its invariant.
    let _valid = &sweep.from;
    let scale = cells_of(depth);
    let whole = Stretch::whole(forms);
    let lists = Lists::of_stretch(&whole, scale);
    if !lists.is_open() {
        return mark_point_uncounted(sweep, stacks, point, depth);
    }
    // What an inner slab holds an outer one does, by the stack.
    let _inner = stacks.inner();
    let slabs = slabs_for(stacks, asked);
    let reached = reached_on_whole(&whole, &lists, slabs, *near);
    *near = reached;
    if !lists.leaves_some(slabs, reached, &whole.width) {
        return Mark::Clear;
    }
    mark_in_reach(sweep, stacks, point, &whole, slabs, scale, reached, levels)
}

/// The mark of a point by the stacks and the reach of a cutter, at the samples and on the cells of a depth, from its forms on a part of
/// the move, 2^`levels` cells: before it and after it no outer slab is left. It is that of `mark_point_uncounted`, with less work. Where
/// only whether the point is sure is wanted, it is a mark that is Removed exactly where that one is. A point that is behind the tip
/// throughout, as most are that lie below a tool's path, costs next to nothing. `near` is the number from which the slab at the
/// point's height is looked for: any is right, best that of a point next to it. The one that is found replaces it.
#[inline]
pub fn mark_on_part(
    sweep: &Sweep,
    stacks: &Stacks,
    point: [i32; 3],
    forms: &WholeForms,
    levels: u32,
    depth: u32,
    near: &mut usize,
    asked: Asked,
) -> Mark
    requires point { IsPoint point }
    requires depth { depth ≤ 10 }
    requires part { IsOpenPart (outer_stack stacks.now.cutter stacks.now.slabs) forms.now.u.c forms.now.n.c forms.now.width.c
        sweep.now point (2 ^ depth) levels }
    ensures { IsAnswer asked result (mark_by stacks.now.cutter stacks.now.slabs sweep.now point (2 ^ depth)) }
{
    // What an inner slab holds an outer one does, by the stack.
    let _inner = stacks.inner();
    if forms.u.all_negative() {
        return Mark::Clear;
    }
    mark_ahead(sweep, stacks, point, forms, levels, depth, near, asked)
}

/// The same from the point's forms on the whole move.
pub fn mark_by_forms(
    sweep: &Sweep,
    stacks: &Stacks,
    point: [i32; 3],
    forms: &WholeForms,
    depth: u32,
    near: usize,
    asked: Asked,
) -> Mark
    requires point { IsPoint point }
    requires depth { depth ≤ 10 }
    requires forms { AreWidthForms forms.now.u.c forms.now.n.c forms.now.width.c sweep.now point 0 (2 ^ depth) (2 ^ depth) }
    ensures { IsAnswer asked result (mark_by stacks.now.cutter stacks.now.slabs sweep.now point (2 ^ depth)) }
{
    let mut near = near;
    mark_on_part(sweep, stacks, point, forms, depth, depth, &mut near, asked)
}

/// The same of a point that is known to be below the outer slab with the number `high` throughout, where there is one, on a move of two
/// cells or more on which n raised to degree 4 is above 0 by its coefficients. The move is halved at once: whether all slabs are
/// excluded on the whole of it isn't tested, as they seldom are where a caller has already tested that in its own way. The inner
/// slabs begin where the outer ones do, so `high` serves for both.
#[inline]
pub fn mark_below(
    sweep: &Sweep,
    stacks: &Stacks,
    point: [i32; 3],
    forms: &WholeForms,
    high: usize,
    depth: u32,
    asked: Asked,
) -> Mark
    requires point { IsPoint point }
    requires some { 0 < depth }
    requires depth { depth ≤ 10 }
    requires forms { AreWidthForms forms.now.u.c forms.now.n.c forms.now.width.c sweep.now point 0 (2 ^ depth) (2 ^ depth) }
    requires positive { all_positive (lifted forms.now.n.c) ≡ true }
    requires below { IsBelowFrom (outer_stack stacks.now.cutter stacks.now.slabs) sweep.now point (2 ^ depth) high }
    ensures { IsAnswer asked result (mark_by stacks.now.cutter stacks.now.slabs sweep.now point (2 ^ depth)) }
{
    // Reading a field of the sweep gives the prover its invariant.
    let _valid = &sweep.from;
    let scale = cells_of(depth);
    let whole = Stretch::whole(forms);
    let slabs = slabs_for(stacks, asked);
    mark_in_reach(sweep, stacks, point, &whole, slabs, scale, high, depth)
}
