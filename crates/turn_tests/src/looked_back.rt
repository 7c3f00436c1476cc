ghost use Rattle.std.specs.Prelude.{◌≡◌, ◌<◌, IfOk, length};
ghost use Rattle.ray_grid.specs.Strips.{strips_of};

use crate::versions::more_edits;
use sample_job::{plan, stock, strips};
use std::alloc::Global;
use std::test::Fail;
use strip_journal::LookedBack;
use strip_plan::Plan;
use turn_core::raise;
use vf_io::NoMemory;

/// How many points are removed at a place, and how many the first move removes there.
#[derive(Clone, Copy, PartialEq, Debug)]
struct Removed {
    so_far: u64,
    by_first: u64,
}

/// How many points some move is sure of at the place of a strip.
fn sure_points(strip: &LookedBack, plan: &Plan) -> u64
    requires { strip.now.job.plan ≡ plan.now }
{
    let grid = plan.grid();
    let mut count: u64 = 0;
    for n in 0..grid.strip_len(strip.number()) {
        let ray = strip.ray(n);
        for l in 0..ray.bound() {
            count = count.saturating_add(u64::from(ray.has_sure(l)));
        }
    }
    count
}

/// Adds what is so of a strip at the place after the first `left` of the moves that are left, if it isn't before that.
fn add_at(
    sums: &mut Removed,
    strip: &mut LookedBack,
    plan: &Plan,
    left: u32,
) -> Result<(), NoMemory>
    requires plan { strip.old.job.plan ≡ plan.now }
    requires some { 0 < length plan.now.moves }
    ensures { strip.new.job ≡ strip.old.job }
{
    if left <= strip.left() {
        strip.back(left);
        sums.so_far = sums.so_far.saturating_add(sure_points(strip, plan));
        let found = strip.find(plan, 0)?;
        sums.by_first = sums.by_first.saturating_add(found.removed);
    }
    Ok(())
}

/// A strip after all edits, for looking back.
fn strip_back(alloc: Global, plan: &Plan, number: usize) -> Result<LookedBack, NoMemory>
    requires { number < length (strips_of plan.now.grid) }
    ensures { IfOk result (λ b. b.job.plan ≡ plan.now) }
{
    let mut made = strips(alloc, plan, &stock(alloc)?)?;
    let mut strip = made.swap_remove(number);
    raise(&mut strip, plan, plan.edits())?;
    Ok(strip.look_back())
}

/// The same of all strips together.
fn removed_at(alloc: Global, plan: &Plan, left: u32) -> Result<Removed, NoMemory>
    requires { 0 < length plan.now.moves }
{
    let mut sums = Removed {
        so_far: 0,
        by_first: 0,
    };
    for number in 0..plan.grid().strips() {
        let mut strip = strip_back(alloc, plan, number as usize)?;
        add_at(&mut sums, &mut strip, plan, left)?;
    }
    Ok(sums)
}

/// The first place that isn't as it is to be, where there is one. The second move is left, which removes 16 points, and after it the
/// first, which removes 14 others.
fn first_other(alloc: Global) -> Result<Option<u32>, NoMemory> {
    let plan = plan(alloc, more_edits(alloc)?)?;
    if plan.moves() == 0 {
        return Ok(Some(0));
    }
    for (left, so_far, by_first) in [(2, 30, 0), (1, 16, 14), (0, 0, 14)] {
        let due = Removed { so_far, by_first };
        if removed_at(alloc, &plan, left)? != due {
            return Ok(Some(left));
        }
    }
    Ok(None)
}

/// Of the moves that are left the sets before and after each are found, whatever was dropped and taken again before.
#[test]
fn each_place_is_as_it_was(rt: HostRuntime) -> Result<(), Fail> {
    assert_eq!(rt; first_other(rt.alloc())?, None);
    Ok(())
}
