ghost use Rattle.std.specs.Prelude.{◌≤◌};

use crate::case::Case;
use crate::compare::compare;
use crate::tally::Tally;
use axis_cells::Sweep;
use cutter_slabs::{Cutter, Stacks};
use ray_grid::Grid;
use std::alloc::Global;
use vf_io::NoMemory;

/// A move of a cutter, and for how many slabs its stacks are made.
#[derive(Drop)]
pub(crate) struct Job {
    sweep: Sweep,
    cutter: Cutter,
    slabs: u32,
    ghost some: { 1 ≤ slabs },
    ghost few: { slabs ≤ 256 },
}

const UP: [i32; 3] = [0, 0, 100_000];

const ALONG_X: [i32; 3] = [100_000, 0, 0];

const FLAT: Cutter = Cutter {
    d: 2_000,
    r: 0,
    h: 5_000,
    flank: 0,
    base: 0,
};

const BALL: Cutter = Cutter {
    d: 2_000,
    r: 1_000,
    h: 1_000,
    flank: 0,
    base: 0,
};

const BULL_NOSE: Cutter = Cutter {
    d: 2_000,
    r: 500,
    h: 5_000,
    flank: 0,
    base: 0,
};

const TOUCH: Sweep = Sweep {
    from: [1_000, 1_000, 1_500],
    to: [1_000, 1_000, 1_500],
    axis_from: UP,
    axis_to: UP,
};

const CLOSE: Sweep = Sweep {
    from: [800, 1_000, 800],
    to: [800, 1_000, 800],
    axis_from: UP,
    axis_to: UP,
};

/// A flat end mill through a small plate upright and lying along x, a ball of its own height that touches a point with its tip,
/// and a bull-nose whose corner comes close to a point; the last two in few slabs and in more.
pub(crate) const JOBS: [Job; 6] = [
    Job {
        sweep: Sweep {
            from: [0, 1_000, 1_000],
            to: [2_000, 1_000, 1_000],
            axis_from: UP,
            axis_to: UP,
        },
        cutter: FLAT,
        slabs: 8,
    },
    Job {
        sweep: Sweep {
            from: [0, 1_000, 500],
            to: [0, 1_000, 500],
            axis_from: ALONG_X,
            axis_to: ALONG_X,
        },
        cutter: FLAT,
        slabs: 8,
    },
    Job {
        sweep: TOUCH,
        cutter: BALL,
        slabs: 1,
    },
    Job {
        sweep: TOUCH,
        cutter: BALL,
        slabs: 4,
    },
    Job {
        sweep: CLOSE,
        cutter: BULL_NOSE,
        slabs: 1,
    },
    Job {
        sweep: CLOSE,
        cutter: BULL_NOSE,
        slabs: 8,
    },
];

/// A small plate, with a ray's points half a millimetre apart.
const PLATE: Grid = Grid {
    origin: [0, 0, 0],
    pitch: 1_000,
    step: 500,
    counts: [3, 3, 2],
};

/// Marks all rays of the plate's grid at a depth, by each body.
pub(crate) fn compare_job(
    alloc: Global,
    job: &Job,
    depth: u32,
    tally: &mut Tally,
) -> Result<(), NoMemory>
    requires { depth ≤ 10 }
{
    let stacks = Stacks::new(alloc, job.cutter, job.slabs)?;
    let grid = PLATE;
    for strip in 0..grid.strips() {
        for n in 0..grid.strip_len(strip) {
            let case = Case {
                grid,
                ray: grid.strip_ray(strip, n),
                sweep: job.sweep,
                depth,
            };
            compare(alloc, &case, &stacks, tally)?;
        }
    }
    Ok(())
}
