ghost use Rattle.std.specs.Prelude.{◌≡◌, ℕ, All, length};
ghost use Rattle.std.specs.Thread.{IsSync};
ghost use Rattle.edit_plan.specs.Queries.{IsQuery};
ghost use Rattle.strip_turns.specs.Passes.{card, IsPass};
ghost use Rattle.worker_gate.specs.Asking.{AsksAll};
ghost use Rattle.worker_gate.specs.Workers.{AreDone, AreFresh, AreNumbered, HaveWorked};

use crate::asker::ask_all;
use crate::gate::Gate;
use crate::worker::{Worker, work};
use edit_plan::Query;
use job_counts::Answer;
use std::alloc::Global;
use std::sync::Wait;
use std::thread;
use std::thread::Threads;
use strip_turns::{Board, Pass};
use vf_io::NoMemory;

/// Asks the queries while the workers work, each in a thread of its own.
pub(crate) fn ask_beside<R: Threads + Wait + Sync, G: Gate + Sync>(
    rt: &R,
    alloc: Global,
    board: &Board,
    pass: &mut Pass,
    queries: &[Query],
    mut team: Vec<Worker>,
    gate: &G,
) -> (Result<Vec<Answer>, NoMemory>, Vec<Worker>)
    requires pass { IsPass board.now pass.old }
    requires queries { All (IsQuery board.now.plan.grid (length board.now.plan.edits)) queries.now }
    requires fresh { AreFresh board.now team.items }
    ensures pass { IsPass board.now pass.new }
    ensures told { AsksAll (card board.now) queries.now result.0 pass.old.seat.me.0 pass.new.seat.me.0 }
    ensures worked { HaveWorked board.now team.items result.1.items }
{
    let (answers, _) = thread::join_mut(
        rt,
        &mut || ask_all(rt, alloc, board, pass, queries),
        &mut || -> ()
            requires { IsSync R.row × IsSync G.row × AreFresh board.now team.items }
            ensures { HaveWorked board.entry.now team.entry.items team.exit.items }
        { work_list(rt, board, &mut team, gate) },
    );
    (answers, team)
}

/// The workers of a list work.
fn work_list<R: Threads + Sync, G: Gate + Sync>(
    rt: &R,
    board: &Board,
    team: &mut Vec<Worker>,
    gate: &G,
)
    requires fresh { AreFresh board.now team.old.items }
    ensures worked { HaveWorked board.now team.old.items team.new.items }
{
    work_each(rt, board, team.as_mut_slice(), gate);
}

/// Each worker works, in a thread of its own.
fn work_each<R: Threads + Sync, G: Gate + Sync>(
    rt: &R,
    board: &Board,
    team: &mut [Worker],
    gate: &G,
)
    requires fresh { AreFresh board.now team.old }
    ensures done { AreDone board.now team.new }
    ensures numbered { (s : ℕ) → AreNumbered s team.old → AreNumbered s team.new }
{
    if team.len() == 0 {
        return;
    }
    let count = team.len();
    thread::for_each_mut(rt, team, count, &|_, worker| work(board, worker, gate));
}
