ghost use Rattle.std.specs.Prelude.{◌≡◌, ℕ, ◌+◌, ◌-◌, ◌*◌, ◌^◌, ◌≤◌, ◌<◌, length, true};
ghost use Rattle.bern_form.specs.Sizes.{scale_limit};
ghost use Rattle.cutter_slabs.specs.Rising.{IsRising};
ghost use Rattle.ray_grid.specs.Lattice.{IsRay, point_of, points_of};
ghost use Rattle.box_bisect.specs.RayBoxes.{IsBox, along, is_undecided, over_children, weight};
ghost use Rattle.box_bisect.specs.RayMarks.{AreRaised, IsEnclosed, greater_mark, mark_by_samples};

use crate::ray::box_forms::BoxForms;
use crate::ray::box_limits::BoxLimits;
use crate::ray::ray_box::RayBox;
use crate::search::{is_held_first, is_held_last};
use axis_cells::{Mark, Sweep, cells_of};
use bern_form::Slab;
use ray_grid::{Grid, Ray};
use std::sync::ledger::Ledger;
use vf_steps::Steps;

/// Whether some of the slabs is not excluded on the box.
pub fn is_undecided<L: Ledger>(
    grid: &Grid,
    ray: &Ray,
    sweep: &Sweep,
    slabs: &[Slab],
    scale: u32,
    cell_box: RayBox,
    steps: &mut Steps<L>,
) -> bool
    requires ray { IsRay grid.now ray.now }
    requires scale { scale ≤ scale_limit }
    requires cell_box { IsBox cell_box.levels cell_box.first cell_box.from cell_box.to scale (points_of grid.now ray.now.family) }
    ensures left { result ≡ is_undecided slabs.now sweep.now (point_of grid.now ray.now) scale
        cell_box.levels cell_box.first cell_box.from cell_box.to }
    ensures cost { steps.new ≤ steps.old + length slabs.now }
{
    let forms = BoxForms::of(grid, ray, sweep, scale, cell_box);
    BoxLimits::of_forms(&forms, scale).leaves_some(slabs, steps)
}

/// The greater of two marks.
#[inline]
fn greater(early: Mark, late: Mark) -> Mark
    ensures { result ≡ greater_mark early late }
{
    match early {
        Mark::Removed => Mark::Removed,
        Mark::Possible => match late {
            Mark::Removed => Mark::Removed,
            Mark::Possible => Mark::Possible,
            Mark::Clear => Mark::Possible,
        },
        Mark::Clear => late,
    }
}

/// The mark of the point of a box of one cell and one index on which some outer slab is left: Removed where some inner slab holds
/// it at one of the two samples, else Possible.
fn mark_on_cell<L: Ledger>(
    grid: &Grid,
    ray: &Ray,
    sweep: &Sweep,
    inner: &[Slab],
    scale: u32,
    cell_box: RayBox,
    steps: &mut Steps<L>,
) -> Mark
    requires ray { IsRay grid.now ray.now }
    requires scale { scale ≤ scale_limit }
    requires cell_box { IsBox cell_box.levels cell_box.first cell_box.from cell_box.to scale (points_of grid.now ray.now.family) }
    requires rising { IsRising inner.now }
    ensures mark { result ≡ mark_by_samples inner.now sweep.now (point_of grid.now ray.now cell_box.from)
        cell_box.first (cell_box.first + 2 ^ cell_box.levels) scale }
    ensures cost { steps.new ≤ steps.old + 2 * length inner.now }
{
    let forms = BoxForms::of(grid, ray, sweep, scale, cell_box);
    if is_held_last(&forms.first, inner, scale, steps) {
        return Mark::Removed;
    }
    if is_held_first(&forms.first, inner, scale, steps) {
        return Mark::Removed;
    }
    Mark::Possible
}

/// Raises the marks of a box's points to their marks within its time. Where all outer slabs are excluded on it nothing is left to
/// do.
#[cycle(boxes)]
fn mark_box<L: Ledger>(
    grid: &Grid,
    ray: &Ray,
    sweep: &Sweep,
    inner: &[Slab],
    outer: &[Slab],
    scale: u32,
    cell_box: RayBox,
    marks: &mut [Mark],
    steps: &mut Steps<L>,
)
    requires ray { IsRay grid.now ray.now }
    requires scale { scale ≤ scale_limit }
    requires cell_box { IsBox cell_box.levels cell_box.first cell_box.from cell_box.to scale (points_of grid.now ray.now.family) }
    requires marks { length marks.old ≡ points_of grid.now ray.now.family }
    requires as_many { length inner.now ≤ length outer.now }
    requires inner { IsRising inner.now }
    requires enclosed { IsEnclosed inner.now outer.now sweep.now scale }
    ensures raised { AreRaised inner.now outer.now sweep.now (point_of grid.now ray.now) scale
        cell_box.first (cell_box.first + 2 ^ cell_box.levels) cell_box.from cell_box.to marks.old marks.new }
    ensures cost { let weigh = weight (is_undecided outer.now sweep.now (point_of grid.now ray.now) scale) in
        (halvings : ℕ) → cell_box.levels + (cell_box.to - cell_box.from) ≤ halvings
        → steps.new ≤ steps.old + length outer.now * (1 + 4 * weigh halvings cell_box.levels cell_box.first cell_box.from cell_box.to) }
{
    if !is_undecided(grid, ray, sweep, outer, scale, cell_box, steps) {
        return;
    }
    mark_children(
        grid, ray, sweep, inner, outer, scale, cell_box, marks, steps,
    );
}

/// The same for a box that is undecided, by its children, or where it has none by its two samples.
#[cycle(boxes)]
pub fn mark_children<L: Ledger>(
    grid: &Grid,
    ray: &Ray,
    sweep: &Sweep,
    inner: &[Slab],
    outer: &[Slab],
    scale: u32,
    cell_box: RayBox,
    marks: &mut [Mark],
    steps: &mut Steps<L>,
)
    requires ray { IsRay grid.now ray.now }
    requires scale { scale ≤ scale_limit }
    requires cell_box { IsBox cell_box.levels cell_box.first cell_box.from cell_box.to scale (points_of grid.now ray.now.family) }
    requires left { is_undecided outer.now sweep.now (point_of grid.now ray.now) scale
        cell_box.levels cell_box.first cell_box.from cell_box.to ≡ true }
    requires marks { length marks.old ≡ points_of grid.now ray.now.family }
    requires as_many { length inner.now ≤ length outer.now }
    requires inner { IsRising inner.now }
    requires enclosed { IsEnclosed inner.now outer.now sweep.now scale }
    ensures raised { AreRaised inner.now outer.now sweep.now (point_of grid.now ray.now) scale
        cell_box.first (cell_box.first + 2 ^ cell_box.levels) cell_box.from cell_box.to marks.old marks.new }
    ensures cost { let weigh = weight (is_undecided outer.now sweep.now (point_of grid.now ray.now) scale) in
        (halvings : ℕ) → cell_box.levels + (cell_box.to - cell_box.from) ≤ halvings + 1
        → steps.new ≤ steps.old
        + length outer.now * (4 * (1 + over_children (weigh halvings) cell_box.levels cell_box.first cell_box.from cell_box.to)) }
{
    if cell_box.levels == 0 {
        if cell_box.to - cell_box.from < 2 {
            let mark = mark_on_cell(grid, ray, sweep, inner, scale, cell_box, steps);
            let index = cell_box.from as usize;
            marks[index] = greater(marks[index], mark);
            return;
        }
        let middle = cell_box.from + (cell_box.to - cell_box.from) / 2;
        let lower = RayBox {
            levels: 0,
            first: cell_box.first,
            from: cell_box.from,
            to: middle,
        };
        mark_box(grid, ray, sweep, inner, outer, scale, lower, marks, steps);
        let upper = RayBox {
            levels: 0,
            first: cell_box.first,
            from: middle,
            to: cell_box.to,
        };
        mark_box(grid, ray, sweep, inner, outer, scale, upper, marks, steps);
        return;
    }
    let levels = cell_box.levels - 1;
    let early = RayBox {
        levels,
        first: cell_box.first,
        from: cell_box.from,
        to: cell_box.to,
    };
    mark_along(grid, ray, sweep, inner, outer, scale, early, marks, steps);
    let late = RayBox {
        levels,
        first: cell_box.first + cells_of(levels),
        from: cell_box.from,
        to: cell_box.to,
    };
    mark_along(grid, ray, sweep, inner, outer, scale, late, marks, steps);
}

/// The same for a box as one child or, where it has two or more indices, as two halves along the ray.
#[cycle(boxes)]
fn mark_along<L: Ledger>(
    grid: &Grid,
    ray: &Ray,
    sweep: &Sweep,
    inner: &[Slab],
    outer: &[Slab],
    scale: u32,
    cell_box: RayBox,
    marks: &mut [Mark],
    steps: &mut Steps<L>,
)
    requires ray { IsRay grid.now ray.now }
    requires scale { scale ≤ scale_limit }
    requires cell_box { IsBox cell_box.levels cell_box.first cell_box.from cell_box.to scale (points_of grid.now ray.now.family) }
    requires marks { length marks.old ≡ points_of grid.now ray.now.family }
    requires as_many { length inner.now ≤ length outer.now }
    requires inner { IsRising inner.now }
    requires enclosed { IsEnclosed inner.now outer.now sweep.now scale }
    ensures raised { AreRaised inner.now outer.now sweep.now (point_of grid.now ray.now) scale
        cell_box.first (cell_box.first + 2 ^ cell_box.levels) cell_box.from cell_box.to marks.old marks.new }
    ensures cost { let weigh = weight (is_undecided outer.now sweep.now (point_of grid.now ray.now) scale) in
        (halvings : ℕ) → cell_box.levels + (cell_box.to - cell_box.from) ≤ halvings
        → steps.new
        ≤ steps.old + length outer.now * (2 + 4 * along (weigh halvings cell_box.levels cell_box.first) cell_box.from cell_box.to) }
{
    if cell_box.to - cell_box.from < 2 {
        mark_box(
            grid, ray, sweep, inner, outer, scale, cell_box, marks, steps,
        );
        return;
    }
    let middle = cell_box.from + (cell_box.to - cell_box.from) / 2;
    let lower = RayBox {
        levels: cell_box.levels,
        first: cell_box.first,
        from: cell_box.from,
        to: middle,
    };
    mark_box(grid, ray, sweep, inner, outer, scale, lower, marks, steps);
    let upper = RayBox {
        levels: cell_box.levels,
        first: cell_box.first,
        from: middle,
        to: cell_box.to,
    };
    mark_box(grid, ray, sweep, inner, outer, scale, upper, marks, steps);
}
