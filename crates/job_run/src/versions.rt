ghost use Rattle.std.specs.Prelude.{◌≡◌, ◌<◌, ◌≤◌, All, IfOk, length, map};
ghost use Rattle.edit_plan.specs.Queries.{IsQuery};
ghost use Rattle.job_model.specs.Tasks.{Job};
ghost use Rattle.turn_core.specs.World.{answer_of};
ghost use Rattle.job_run.specs.Jobs.{OfSomeJob};
ghost use Rattle.job_run.specs.Strips.{AreAt, AreOf};

use edit_plan::Query;
use job_counts::Answer;
use std::alloc::Global;
use std::sync::Wait;
use std::thread::Threads;
use strip_journal::Strip;
use strip_plan::Plan;
use strip_turns::Board;
use vf_io::NoMemory;
use worker_gate::{Gate, crew};

/// Answers all queries, and takes all strips to the last version: `workers` workers turn the strips while the queries are asked.
/// Who takes which turn, and in which order, doesn't show in any result.
pub fn bring_up<R: Threads + Wait + Sync, G: Gate + Sync>(
    rt: &R,
    alloc: Global,
    plan: Plan,
    strips: Vec<Strip>,
    queries: &[Query],
    workers: u32,
    gate: &G,
) -> Result<(Vec<Answer>, Vec<Strip>), NoMemory>
    requires workers { (0 < workers) × (workers ≤ 16) }
    requires strips { OfSomeJob (λ job. AreOf plan job strips.items) }
    requires queries { All (IsQuery plan.grid (length plan.edits)) queries.now }
    ensures strips { IfOk result (λ up. (job : Job) → AreOf plan job strips.items → AreAt plan job (length plan.edits) up.1.items) }
    ensures answers { IfOk result (λ up. (job : Job) → AreOf plan job strips.items → up.0.items ≡ map (answer_of job) queries.now) }
{
    let (board, mut first) = Board::new(alloc, plan, strips)?;
    let answers = crew(rt, alloc, &board, &mut first, queries, workers, gate)?;
    let strips = board.close(alloc, first)?;
    Ok((answers, strips))
}
