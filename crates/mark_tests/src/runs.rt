use axis_cells::{Mark, Sweep};
use box_bisect::mark_point_uncounted;
use cutter_slabs::{Cutter, Stacks};
use ray_grid::{Family, Grid, Ray};
use ray_runs::{open_stretch, sure_run};
use std::test::Fail;

/// Rays of 60 points along x, a tenth of a millimetre apart, two millimetres from each other.
const GRID: Grid = Grid {
    origin: [0, 0, 0],
    pitch: 2_000,
    step: 100,
    counts: [3, 4, 2],
};

/// A ball cutter of 2 mm goes 40 mm along the ray at y = 0, its tip 1 mm below it, upright.
const MOVE: Sweep = Sweep {
    from: [-20_000, 0, -1_000],
    to: [20_000, 0, -1_000],
    axis_from: [0, 0, 100_000],
    axis_to: [0, 0, 100_000],
};

/// Points of rays, by the node and from one to another, whether a run of them is found, and whether they are found to be clear.
type Row = (u32, u32, u32, bool, bool);

const ROWS: [Row; 5] = [
    (0, 0, 59, true, false),
    (1, 0, 19, false, true),
    // The ends are farther apart than the ray is off the axis, so that their test says nothing.
    (1, 0, 59, false, false),
    (2, 0, 59, false, true),
    (3, 20, 59, false, true),
];

/// Whether a point has this mark by itself.
fn has_mark(stacks: &Stacks, ray: &Ray, l: u32, mark: Mark) -> bool {
    let grid = GRID;
    let sweep = MOVE;
    grid.has_point(ray, l) && mark_point_uncounted(&sweep, stacks, grid.point(ray, l), 10) == mark
}

/// Whether the points from one to another have this mark by themselves.
fn have_mark(stacks: &Stacks, ray: &Ray, from: u32, to: u32, mark: Mark) -> bool {
    for l in from..to {
        if !has_mark(stacks, ray, l, mark) {
            return false;
        }
    }
    has_mark(stacks, ray, to, mark)
}

/// Whether a run and clear words are found as the row says, and their points have these marks by themselves.
fn is_found(stacks: &Stacks, row: &Row) -> bool {
    let grid = GRID;
    let sweep = MOVE;
    let (i, from, to, has_run, is_clear) = *row;
    let ray = Ray {
        family: Family::X,
        i,
        j: 0,
    };
    if to < from || !grid.has_point(&ray, to) {
        return false;
    }
    let run = sure_run(&sweep, stacks, 10, &grid, &ray, from, to);
    let clear = open_stretch(&sweep, stacks, 10, &grid, &ray, from, to).is_none();
    let is_sure = match run {
        Some(run) => has_run && have_mark(stacks, &ray, run.first, run.last, Mark::Removed),
        None => !has_run,
    };
    is_sure && clear == is_clear && (!clear || have_mark(stacks, &ray, from, to, Mark::Clear))
}

/// The points of a run and of clear words have these marks by themselves; a run is found on the ray along the way, and the ones next to
/// it are clear.
#[test]
fn runs_and_clear_words(rt: HostRuntime) -> Result<(), Fail> {
    let cutter = Cutter {
        d: 2_000,
        r: 1_000,
        h: 50_000,
        flank: 0,
        base: 0,
    };
    let stacks = Stacks::new(rt.alloc(), cutter, 16)?;
    for (number, row) in ROWS.iter().enumerate() {
        assert!(rt; is_found(&stacks, row), "row {number}");
    }
    Ok(())
}
