ghost use Rattle.std.specs.Prelude.{◌≡◌, ◌<◌, ◌≤◌, All, IfOk, length};
ghost use Rattle.std.specs.Thread.{IsSync};
ghost use Rattle.edit_plan.specs.Queries.{IsQuery};
ghost use Rattle.job_run.specs.Finished.{IsFinished};
ghost use Rattle.job_run.specs.Jobs.{AreOver, job_with};
ghost use Rattle.job_run.specs.Strips.{AreAt};
ghost use Rattle.strip_plan.specs.Parts.{IsPreparedOf};

use crate::bodies::JobBodies;
use crate::left::{LeftMove, left_moves};
use crate::strips::fresh_strips;
use crate::versions::bring_up;
use edit_plan::Query;
use job_counts::Answer;
use std::alloc::Global;
use std::sync::Wait;
use std::thread::{Threads, join};
use strip_journal::Strip;
use strip_plan::{Plan, PlanDraft, Prepared};
use vf_io::NoMemory;
use worker_gate::Gate;

/// A job that is done, with its strips after all edits: what is reported of it, and what it leaves of the stock, is taken from them.
#[derive(Drop)]
pub struct FinishedJob {
    /// How many moves the plan has, and how many edits.
    pub moves: u32,
    pub edits: u32,
    /// The moves that are left, in order.
    pub left: Vec<LeftMove>,
    /// The answers to the queries, in order.
    pub answers: Vec<Answer>,
    pub strips: Vec<Strip>,
}

/// The plan of a draft and its strips before the first edit, each by `workers` workers: where there are two or more, the plan is
/// computed in a thread of its own at the same time as the strips, where one can be made.
fn made_at_once<R: Threads + Sync>(
    rt: &R,
    alloc: Global,
    draft: PlanDraft,
    bodies: &JobBodies,
    workers: u32,
) -> Result<(Plan, Vec<Strip>), NoMemory>
    requires workers { 0 < workers }
    requires over { AreOver draft.grid bodies.now }
    ensures plan { IfOk result (λ made. made.0 ≡ draft) }
    ensures strips { IfOk result (λ made. AreAt draft (job_with draft bodies.now) 0 made.1.items) }
{
    let plan = &draft;
    if workers < 2 {
        let prepared = plan.prepare_by(rt, alloc, workers)?;
        let strips = fresh_strips(rt, alloc, plan, bodies, workers)?;
        return Ok((Plan::of_draft(draft, prepared), strips));
    }
    let front = move || -> Result<Prepared, NoMemory>
        requires { IsSync R.row }
        ensures { IfOk result (IsPreparedOf plan.entry.now) }
    { plan.prepare_by(rt, alloc, workers) };
    let back = move || -> Result<Vec<Strip>, NoMemory>
        requires { IsSync R.row × (0 < workers) × AreOver plan.now.grid bodies.now }
        ensures { IfOk result (λ strips. AreAt plan.entry.now (job_with plan.entry.now bodies.entry.now) 0 strips.items) }
    { fresh_strips(rt, alloc, plan, bodies, workers) };
    let (prepared, strips) = join(rt, front, back);
    let prepared = prepared?;
    let strips = strips?;
    Ok((Plan::of_draft(draft, prepared), strips))
}

/// Does a whole job by `workers` workers. Fails only when out of memory.
pub fn finish_job<R: Threads + Wait + Sync, G: Gate + Sync>(
    rt: &R,
    alloc: Global,
    draft: PlanDraft,
    bodies: &JobBodies,
    queries: &[Query],
    workers: u32,
    gate: &G,
) -> Result<FinishedJob, NoMemory>
    requires queries { All (IsQuery draft.grid (length draft.edits)) queries.now }
    requires workers { (0 < workers) × (workers ≤ 16) }
    requires over { AreOver draft.grid bodies.now }
    ensures { IfOk result (IsFinished (job_with draft bodies.now) queries.now) }
{
    let (plan, strips) = made_at_once(rt, alloc, draft, bodies, workers)?;
    let (moves, edits) = (plan.moves(), plan.edits());
    let left = left_moves(alloc, &plan)?;
    let (answers, strips) = bring_up(rt, alloc, plan, strips, queries, workers, gate)?;
    Ok(FinishedJob {
        moves,
        edits,
        left,
        answers,
        strips,
    })
}
