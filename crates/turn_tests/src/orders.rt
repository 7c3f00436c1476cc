ghost use Rattle.std.specs.Prelude.{◌≡◌, All, length};
ghost use Rattle.ray_grid.specs.Strips.{strips_of};
ghost use Rattle.edit_plan.specs.Queries.{IsQuery};
ghost use Rattle.turn_core.specs.World.{IsStepOf};

use edit_plan::Query;
use job_counts::Answer;
use sample_job::{answers, edits, plan, queries, stock, strips};
use std::alloc::Global;
use std::test::Fail;
use strip_journal::Strip;
use strip_plan::Plan;
use turn_core::{Step, play};
use vf_io::NoMemory;

/// Whether steps on strips that are made for them give these answers, and leave the strips at these versions.
fn are_played(
    alloc: Global,
    plan: &Plan,
    queries: &[Query],
    steps: &[Step],
    due: &[Answer],
    versions: &[u32; 9],
) -> Result<bool, NoMemory>
    requires queries { All (IsQuery plan.now.grid (length plan.now.edits)) queries.now }
    requires steps { All (IsStepOf plan.now (length queries.now)) steps.now }
{
    let mut strips = strips(alloc, plan, &stock(alloc)?)?;
    let answers = play(alloc, strips.as_mut_slice(), plan, queries, steps)?;
    Ok(answers.as_slice() == due && are_at(&strips, versions))
}

/// Whether the strips are at these versions.
fn are_at(strips: &[Strip], versions: &[u32; 9]) -> bool {
    for (strip, version) in strips.iter().zip(versions) {
        if strip.done() != *version {
            return false;
        }
    }
    strips.len() == 9
}

/// Whether a short order of steps gives the expected answers.
fn is_short_played(alloc: Global, plan: &Plan, queries: &[Query]) -> Result<bool, NoMemory>
    requires strips { length (strips_of plan.now.grid) ≡ 9 }
    requires many { length queries.now ≡ 6 }
    requires each { All (IsQuery plan.now.grid (length plan.now.edits)) queries.now }
{
    let steps = [Step::Turn(8), Step::Ask(0)];
    let behind = [2, 0, 0, 0, 0, 0, 0, 0, 5];
    are_played(alloc, plan, queries, &steps, &[answers()[0]], &behind)
}

/// Whether a long one does.
fn is_long_played(alloc: Global, plan: &Plan, queries: &[Query]) -> Result<bool, NoMemory>
    requires strips { length (strips_of plan.now.grid) ≡ 9 }
    requires many { length queries.now ≡ 6 }
    requires each { All (IsQuery plan.now.grid (length plan.now.edits)) queries.now }
{
    let steps = [
        Step::Turn(8),
        Step::Ask(5),
        Step::Ask(0),
        Step::Turn(0),
        Step::Ask(2),
        Step::Ask(3),
    ];
    let due = answers();
    let told = [due[5], due[0], due[2], due[3]];
    are_played(alloc, plan, queries, &steps, &told, &[5; 9])
}

/// Whether both do, and no steps give no answers.
fn are_orders_played(alloc: Global, plan: &Plan, queries: &[Query]) -> Result<[bool; 3], NoMemory>
    requires strips { length (strips_of plan.now.grid) ≡ 9 }
    requires many { length queries.now ≡ 6 }
    requires each { All (IsQuery plan.now.grid (length plan.now.edits)) queries.now }
{
    Ok([
        is_short_played(alloc, plan, queries)?,
        is_long_played(alloc, plan, queries)?,
        are_played(alloc, plan, queries, &[], &[], &[0; 9])?,
    ])
}

/// The same on the small job.
fn orders(alloc: Global) -> Result<[bool; 3], NoMemory> {
    let plan = plan(alloc, edits(alloc, 1)?)?;
    let queries = queries(alloc, &plan)?;
    are_orders_played(alloc, &plan, &queries)
}

#[test]
fn every_order_gives_the_answers(rt: HostRuntime) -> Result<(), Fail> {
    assert_eq!(rt; orders(rt.alloc())?, [true, true, true]);
    Ok(())
}
