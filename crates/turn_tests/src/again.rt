ghost use Rattle.std.specs.Prelude.{◌+◌, ◌<◌, ◌≤◌, All, length};
ghost use Rattle.edit_plan.specs.Queries.{IsQuery};
ghost use Rattle.strip_turns.specs.Plays.{IsAlone};
ghost use Rattle.strip_turns.specs.Passes.{IsPass};
ghost use Rattle.worker_gate.specs.Crew.{CanHire};

use edit_plan::Query;
use job_counts::Answer;
use std::alloc::Global;
use std::sync::Wait;
use std::thread::Threads;
use strip_turns::{Board, Pass};
use vf_io::NoMemory;
use worker_gate::{Gate, crew};

/// A crew, and another one on the same board where the first found no memory. The board can be closed however it ends.
pub fn crew_or_another<R: Threads + Wait + Sync, G: Gate + Sync>(
    rt: &R,
    alloc: Global,
    board: &Board,
    pass: &mut Pass,
    queries: &[Query],
    workers: u32,
    gate: &G,
) -> Result<Vec<Answer>, NoMemory>
    requires workers { (0 < workers) × (workers ≤ 16) }
    requires ready { CanHire board.now (workers + workers) pass.old }
    requires queries { All (IsQuery board.now.plan.grid (length board.now.plan.edits)) queries.now }
    ensures pass { IsPass board.now pass.new }
    ensures alone { IsAlone pass.new.seat.me.0 }
{
    match crew(rt, alloc, board, pass, queries, workers, gate) {
        Ok(answers) => Ok(answers),
        Err(NoMemory) => crew(rt, alloc, board, pass, queries, workers, gate),
    }
}
