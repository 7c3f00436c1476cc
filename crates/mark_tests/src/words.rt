use axis_cells::{Mark, Sweep};
use box_bisect::mark_point_uncounted;
use cutter_slabs::{Cutter, Stacks};
use ray_grid::{Family, Grid, Ray};
use std::test::Fail;
use vf_spans::bits::{has_bit, lowest_bits};
use wanted_marks::{MoveMarker, ReadyMove, WordMarks};

/// A lattice of 20 mm by 10 mm by 16 mm with nodes at each second millimetre and points at each half of one.
const GRID: Grid = Grid {
    origin: [0, 0, 0],
    pitch: 2_000,
    step: 500,
    counts: [10, 5, 8],
};

/// The depth of the samples and cells.
const DEPTH: u32 = 4;

/// Whether the marks say of a point what the plain body does, which tests only that point.
fn is_plain(sweep: &Sweep, stacks: &Stacks, ray: &Ray, l: u32, marks: &WordMarks) -> bool {
    let grid = GRID;
    if l >= 64 || !grid.has_point(ray, l) {
        return true;
    }
    let plain = mark_point_uncounted(sweep, stacks, grid.point(ray, l), DEPTH);
    has_bit(marks.sure, l) == (plain == Mark::Removed)
        && has_bit(marks.possible, l) == (plain != Mark::Clear)
}

/// Whether the marks say that of all points of the ray.
fn are_plain(sweep: &Sweep, stacks: &Stacks, ray: &Ray, marks: &WordMarks) -> bool {
    for l in 0..64 {
        if !is_plain(sweep, stacks, ray, l, marks) {
            return false;
        }
    }
    true
}

/// The marks of all points of a ray, where the lattice has it and its points are one word.
fn marks_of<'x>(mover: &'x MoveMarker<'x>, grid: &'x Grid, ray: Ray) -> Option<WordMarks> {
    let points = grid.points(ray.family);
    if points > 64 || !grid.has_point(&ray, 0) {
        return None;
    }
    let marker = mover.on_ray(grid, ray);
    Some(marker.mark(0, lowest_bits(points), 0, &mut 0))
}

/// A ray, and which of its points are sure and possible.
type Marked = (Family, u32, u32, u64, u64);

/// Whether a ray has these marks.
fn is_marked(sweep: &Sweep, stacks: &Stacks, marked: &Marked) -> bool {
    let grid = GRID;
    let (family, i, j, sure, possible) = *marked;
    let ray = Ray { family, i, j };
    let ready = ReadyMove::new(sweep, stacks, DEPTH, &grid);
    let mover = MoveMarker::of_ready(sweep, stacks, DEPTH, &ready);
    match marks_of(&mover, &grid, ray) {
        Some(marks) => {
            marks.sure == sure
                && marks.possible == possible
                && are_plain(sweep, stacks, &ray, &marks)
        }
        None => false,
    }
}

/// Rays by the ball below, and which of their points are sure and possible.
const WORDS: [Marked; 3] = [
    (Family::Z, 7, 2, 0xffff_fff8, 0xffff_fffc),
    (Family::Z, 5, 4, 0xffff_fff8, 0xffff_fffc),
    (Family::X, 2, 1, 0x7fff_ffff, 0x3_ffff_ffff),
];

/// A ball of 10 mm, upright, that ends at (10 mm, 4 mm, 0). In 8 slabs its corner has bounds at 0.156, 0.625, 1.406 mm and so on. A
/// ray 4 mm from its axis is within it from 0.835 mm on: its points from 1.5 mm on are in inner slabs from the third one to the one
/// above the corner, that at 1 mm is in the outer slab that is wide enough from there on, and that at 0.5 mm is outside of its own.
/// At the height of 2 mm the inner slab goes 5.113 mm from the axis, and the outer one 6.614 mm.
#[test]
fn rays_by_a_ball(rt: HostRuntime) -> Result<(), Fail> {
    let ball = Cutter {
        d: 20_000,
        r: 10_000,
        h: 30_000,
        flank: 0,
        base: 0,
    };
    let sweep = Sweep {
        from: [0, 4_000, 0],
        to: [10_000, 4_000, 0],
        axis_from: [0, 0, 100_000],
        axis_to: [0, 0, 100_000],
    };
    let stacks = Stacks::new(rt.alloc(), ball, 8)?;
    for (number, marked) in WORDS.iter().enumerate() {
        assert!(rt; is_marked(&sweep, &stacks, marked), "row {number}");
    }
    Ok(())
}
