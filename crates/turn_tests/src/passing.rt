use sample_job::{edits, plan, stock, strips};
use std::alloc::Global;
use std::test::Fail;
use strip_plan::Plan;
use vf_io::NoMemory;

/// How many edits a strip of the job passes over before its first turn.
fn passed(alloc: Global, plan: &Plan, number: usize) -> Result<u32, NoMemory> {
    let mut strips = strips(alloc, plan, &stock(alloc)?)?;
    if number >= strips.len() {
        return Ok(u32::MAX);
    }
    let left = plan.edits() - strips[number].done();
    Ok(strips[number].skip_untouched(plan, left))
}

/// The same of the strips 2, 8, 0 and 6.
fn all_passed(alloc: Global, plan: &Plan) -> Result<[u32; 4], NoMemory> {
    Ok([
        passed(alloc, plan, 2)?,
        passed(alloc, plan, 8)?,
        passed(alloc, plan, 0)?,
        passed(alloc, plan, 6)?,
    ])
}

/// The same in the small job.
fn passed_in_job(alloc: Global) -> Result<[u32; 4], NoMemory> {
    let plan = plan(alloc, edits(alloc, 1)?)?;
    all_passed(alloc, &plan)
}

/// The first move leaves each third strip alone, which the next one enters, and enters the one two before it.
#[test]
fn what_leaves_a_strip_alone_is_passed_over(rt: HostRuntime) -> Result<(), Fail> {
    assert_eq!(rt; passed_in_job(rt.alloc())?, [1, 1, 0, 0]);
    Ok(())
}
