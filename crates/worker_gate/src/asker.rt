ghost use Rattle.std.specs.Prelude.{All, length};
ghost use Rattle.edit_plan.specs.Queries.{IsQuery};
ghost use Rattle.strip_turns.specs.Passes.{card, IsPass};
ghost use Rattle.worker_gate.specs.Asking.{AsksAll};

use edit_plan::Query;
use job_counts::Answer;
use std::alloc::Global;
use std::sync::Wait;
use strip_turns::{Board, Pass};
use vf_io::NoMemory;

/// Asks the queries in order, and gives their answers.
pub(crate) fn ask_all<R: Wait>(
    rt: &R,
    alloc: Global,
    board: &Board,
    pass: &mut Pass,
    queries: &[Query],
) -> Result<Vec<Answer>, NoMemory>
    requires pass { IsPass board.now pass.old }
    requires queries { All (IsQuery board.now.plan.grid (length board.now.plan.edits)) queries.now }
    ensures pass { IsPass board.now pass.new }
    ensures told { AsksAll (card board.now) queries.now result pass.old.seat.me.0 pass.new.seat.me.0 }
{
    let Ok(mut answers) = Vec::with_capacity(alloc, queries.len()) else {
        return Err(NoMemory);
    };
    for query in queries {
        match board.ask(rt, pass, query) {
            Ok(answer) => answers.push_reserved(answer),
            Err(NoMemory) => return Err(NoMemory),
        }
    }
    Ok(answers)
}
