use crate::case::Case;
use crate::sets::sets_of;
use axis_cells::Sweep;
use cutter_slabs::{Cutter, Stacks};
use ray_grid::{Family, Grid, Ray};
use std::alloc::Global;
use vf_io::NoMemory;

/// A ray of 400,000 points along which a narrow tool passes at a distance of three millimetres.
const LONG: Case = Case {
    grid: Grid {
        origin: [0, 0, -1_000_000],
        pitch: 5_000,
        step: 5,
        counts: [1, 1, 400],
    },
    ray: Ray {
        family: Family::Z,
        i: 0,
        j: 0,
    },
    sweep: Sweep {
        from: [3_000, 0, -1_000_000],
        to: [3_000, 0, 990_000],
        axis_from: [0, 0, 100_000],
        axis_to: [0, 0, 100_000],
    },
    depth: 10,
};

const TOOL: Cutter = Cutter {
    d: 2_000,
    r: 1_000,
    h: 5_000,
    flank: 0,
    base: 0,
};

/// How many points of the long ray there are, how many are sure, and how many possible.
pub(crate) fn long_counts(alloc: Global) -> Result<(u32, u32, u32), NoMemory> {
    let case = LONG;
    let stacks = Stacks::new(alloc, TOOL, 256)?;
    let sets = sets_of(alloc, &case, &stacks)?;
    Ok((
        case.grid.points(Family::Z),
        sets.sure.count(),
        sets.possible.count(),
    ))
}
