ghost use Rattle.std.specs.Prelude.{◌≡◌, All, IfOk, length};
ghost use Rattle.edit_plan.specs.Edits.{AppliesBelow};
ghost use Rattle.turn_core.specs.World.{AreOfPlan};

use axis_cells::Sweep;
use cutter_slabs::Cutter;
use edit_plan::{Edit, Edits};
use job_counts::Totals;
use ray_grid::Grid;
use sample_job::{boxed, strips};
use std::alloc::Global;
use std::test::Fail;
use strip_journal::Strip;
use strip_plan::{Plan, PlanMove};
use turn_core::turn_strip;
use vf_io::NoMemory;

/// A ball cutter of 2 mm that is upright and passes the origin's z ray at a distance of 3 mm, all along its 400,000 points.
fn plan(alloc: Global) -> Result<Plan, NoMemory> {
    let grid = Grid {
        origin: [0, 0, -1_000_000],
        pitch: 5_000,
        step: 5,
        counts: [1, 1, 400],
    };
    let ball = Cutter {
        d: 2_000,
        r: 1_000,
        h: 5_000,
        flank: 0,
        base: 0,
    };
    let along = Sweep {
        from: [3_000, 0, -1_000_000],
        to: [3_000, 0, 990_000],
        axis_from: [0, 0, 100_000],
        axis_to: [0, 0, 100_000],
    };
    let mut moves = Vec::new(alloc);
    moves.push(PlanMove::new(along, ball, false, 1))?;
    let mut edits = Edits::new(alloc);
    edits.push(Edit::Apply(0))?;
    Plan::new(alloc, grid, 256, 10, moves, edits)
}

/// The totals of the first strip after its edits, if there is one.
fn first_totals(strips: &mut [Strip], plan: &Plan) -> Option<Totals>
    requires { AreOfPlan plan.now strips.old }
{
    if strips.is_empty() {
        return None;
    }
    match turn_strip(&mut strips[0], plan) {
        Ok((_, to)) => Some(strips[0].counts_at(to)),
        Err(_) => None,
    }
}

/// The totals of the first strip of the plan.
fn totals(alloc: Global) -> Result<Option<Totals>, NoMemory> {
    let plan = plan(alloc)?;
    let stock = boxed(alloc, [1, 1, 1_000_000], [1, 1, 1_000_000])?;
    let mut strips = strips(alloc, &plan, &stock)?;
    Ok(first_totals(strips.as_mut_slice(), &plan))
}

/// Its points are too many to be tested one by one at each of 256 slabs and 1,024 times.
#[test]
fn a_long_ray_is_left_alone(rt: HostRuntime) -> Result<(), Fail> {
    let untouched = Totals {
        removed: 0,
        possible: 0,
        of: 400_000,
    };
    assert!(rt; totals(rt.alloc())? == Some(untouched));
    Ok(())
}
