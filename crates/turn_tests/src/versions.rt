ghost use Rattle.std.specs.Prelude.{◌≡◌, ◌≤◌, All, IfOk, length};
ghost use Rattle.edit_plan.specs.Edits.{AppliesBelow};

use edit_plan::{Edit, Edits};
use job_counts::PointState;
use sample_job::{edits, plan, stock, strips};
use std::alloc::Global;
use std::test::Fail;
use strip_journal::Strip;
use strip_plan::Plan;
use turn_core::{raise, state_at};
use vf_io::NoMemory;

/// How many points are removed at each version: the first move removes 14 and the second 16, and none of them both.
const REMOVED: [usize; 11] = [0, 14, 30, 14, 0, 16, 0, 16, 30, 16, 30];

/// The edits of two moves, and then more: what is left is dropped and taken again, and so is the first move after it.
pub fn more_edits(alloc: Global) -> Result<Edits, NoMemory>
    ensures many { IfOk result (λ edits. length edits ≡ 10) }
    ensures named { IfOk result (λ edits. All (AppliesBelow 2) edits) }
{
    let mut more = edits(alloc, 1)?;
    more.push(Edit::Undo)?;
    more.push(Edit::Redo)?;
    more.push(Edit::Apply(0))?;
    more.push(Edit::Undo)?;
    more.push(Edit::Redo)?;
    Ok(more)
}

/// Adds the states of all points of a strip at a version.
fn add_states(
    states: &mut Vec<PointState>,
    strip: &Strip,
    plan: &Plan,
    version: u32,
) -> Result<(), NoMemory>
    requires plan { strip.now.job.plan ≡ plan.now }
    requires version { version ≤ strip.now.done }
{
    let grid = plan.grid();
    let number = strip.number();
    for n in 0..grid.strip_len(number) {
        let ray = grid.strip_ray(number, n);
        for l in 0..grid.points(ray.family) {
            states.push(state_at(strip, version, n, l))?;
        }
    }
    Ok(())
}

/// The states of all points at a version, from strips that were taken to a newer one, or to the same.
fn states_at(
    alloc: Global,
    plan: &Plan,
    newest: u32,
    version: u32,
) -> Result<Vec<PointState>, NoMemory>
    requires order { version ≤ newest }
    requires within { newest ≤ length plan.now.edits }
{
    let mut made = strips(alloc, plan, &stock(alloc)?)?;
    let strips = made.as_mut_slice();
    let mut states = Vec::new(alloc);
    for k in 0..strips.len() {
        raise(&mut strips[k], plan, newest)?;
        add_states(&mut states, &strips[k], plan, version)?;
    }
    Ok(states)
}

/// How many of the states are those of removed points.
fn removed(states: &[PointState]) -> usize {
    let mut count = 0;
    for state in states {
        if *state == PointState::Removed {
            count += 1;
        }
    }
    count
}

/// Whether strips that were taken to a newer version report these states at this one.
fn are_told(
    alloc: Global,
    plan: &Plan,
    newest: u32,
    version: u32,
    states: &[PointState],
) -> Result<bool, NoMemory>
    requires order { version ≤ newest }
    requires within { newest ≤ length plan.now.edits }
{
    Ok(states_at(alloc, plan, newest, version)?.as_slice() == states)
}

/// Whether `due` of the 108 points are removed at a version, and newer strips report of it what strips report that are there.
fn is_told(alloc: Global, plan: &Plan, version: u32, due: usize) -> Result<bool, NoMemory>
    requires edits { length plan.now.edits ≡ 10 }
    requires within { version ≤ 10 }
{
    let fresh = states_at(alloc, plan, version, version)?;
    if fresh.len() != 108 || removed(&fresh) != due {
        return Ok(false);
    }
    if version <= 5 && !are_told(alloc, plan, 5, version, &fresh)? {
        return Ok(false);
    }
    are_told(alloc, plan, 10, version, &fresh)
}

/// The first version that isn't reported as it was, where there is one.
fn first_other(alloc: Global, plan: &Plan) -> Result<Option<u32>, NoMemory>
    requires { length plan.now.edits ≡ 10 }
{
    for version in 0..11 {
        if !is_told(alloc, plan, version, REMOVED[version as usize])? {
            return Ok(Some(version));
        }
    }
    Ok(None)
}

/// The same of the plan with more edits.
fn first_of_more(alloc: Global) -> Result<Option<u32>, NoMemory> {
    let plan = plan(alloc, more_edits(alloc)?)?;
    first_other(alloc, &plan)
}

/// Strips report of each version what strips reported that were there, before it was dropped and after.
#[test]
fn each_version_is_told_as_it_was(rt: HostRuntime) -> Result<(), Fail> {
    assert_eq!(rt; first_of_more(rt.alloc())?, None);
    Ok(())
}
