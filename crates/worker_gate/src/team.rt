ghost use Rattle.std.specs.Prelude.{◌≡◌, ℕ, [], ◌+◌, ◌<◌, ◌≤◌, All, length, IfOk, IfErr, true, false};
ghost use Rattle.edit_plan.specs.Queries.{IsQuery};
ghost use Rattle.strip_turns.specs.Plays.{IsAlone};
ghost use Rattle.strip_turns.specs.Passes.{card, IsPass};
ghost use Rattle.worker_gate.specs.Workers.{AreDone, AreFresh, AreNumbered};
ghost use Rattle.worker_gate.specs.Crew.{CanHire, Crews, IsTeam, Merged, with_splits};

use crate::gate::Gate;
use crate::threads::ask_beside;
use crate::worker::Worker;
use edit_plan::Query;
use job_counts::Answer;
use std::alloc::Global;
use std::sync::Wait;
use std::thread::Threads;
use strip_turns::{Board, Pass};
use vf_io::NoMemory;

/// Answers the queries in order while `workers` workers turn the strips, and then takes each strip to the last version.
///
/// When out of memory all workers were joined and merged: it may be called again while the pass can still be split so often, and
/// the board can be closed.
pub fn crew<R: Threads + Wait + Sync, G: Gate + Sync>(
    rt: &R,
    alloc: Global,
    board: &Board,
    pass: &mut Pass,
    queries: &[Query],
    workers: u32,
    gate: &G,
) -> Result<Vec<Answer>, NoMemory>
    requires workers { (0 < workers) × (workers ≤ 16) }
    requires ready { CanHire board.now workers pass.old }
    requires queries { All (IsQuery board.now.plan.grid (length board.now.plan.edits)) queries.now }
    ensures pass { IsPass board.now pass.new }
    ensures told { Crews (card board.now) queries.now workers result pass.old.seat.me.0 pass.new.seat.me.0 }
    // However it ends, no other pass is out.
    ensures alone { IsAlone pass.new.seat.me.0 }
{
    let Ok(team) = hire(alloc, board, pass, workers) else {
        return Err(NoMemory);
    };
    let (answers, team) = ask_beside(rt, alloc, board, pass, queries, team, gate);
    let short = merge_all(board, pass, team);
    let Ok(answers) = answers else {
        return Err(NoMemory);
    };
    if short {
        return Err(NoMemory);
    }
    let Ok(()) = board.finish(rt, pass) else {
        return Err(NoMemory);
    };
    Ok(answers)
}

/// `workers` workers, each with a pass of its own.
fn hire(
    alloc: Global,
    board: &Board,
    pass: &mut Pass,
    workers: u32,
) -> Result<Vec<Worker>, NoMemory>
    requires ready { CanHire board.now workers pass.old }
    ensures pass { IsPass board.now pass.new }
    ensures fresh { IfOk result (λ ws. AreFresh board.now ws.items × (length ws.items ≡ workers)) }
    ensures numbered { IfOk result (λ ws. AreNumbered pass.old.seat.me.0.splits ws.items) }
    ensures split { IfOk result (λ ws. pass.new.seat.me.0 ≡ with_splits workers pass.old.seat.me.0) }
    ensures kept { IfErr result (λ _. pass.new ≡ pass.old) }
{
    let Ok(mut team) = Vec::with_capacity(alloc, workers as usize) else {
        return Err(NoMemory);
    };
    for _i in 0..workers {
        team.push_reserved(Worker {
            pass: board.split(pass),
            short: false,
        });
    }
    Ok(team)
}

/// The first pass takes in what the workers did. Returns whether one of them found no memory.
fn merge_all(board: &Board, pass: &mut Pass, mut team: Vec<Worker>) -> bool
    requires pass { IsPass board.now pass.old }
    requires first { pass.old.seat.me.0.first ≡ true }
    requires done { AreDone board.now team.items }
    requires team { IsTeam pass.old.seat.me.0 team.items }
    ensures pass { IsPass board.now pass.new }
    ensures out { pass.new.seat.me.0.out ≡ [] }
    ensures merged { Merged (card board.now) (length team.items) result pass.old.seat.me.0 pass.new.seat.me.0 }
{
    let mut short = false;
    while let Some(worker) = team.pop() {
        let Worker {
            pass: other,
            short: failed,
        } = worker;
        short = any_short(short, failed);
        board.merge(pass, other);
    }
    short
}

/// Whether one of the two is so. The choice is in a function of its own, so that what it says is known after it.
fn any_short(short: bool, failed: bool) -> bool
    ensures { result ≡ false → (short ≡ false) × (failed ≡ false) }
{
    short || failed
}
