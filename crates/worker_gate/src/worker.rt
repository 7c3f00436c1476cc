ghost use Rattle.std.specs.Prelude.{◌≡◌, ◌<◌, ◌^◌};
ghost use Rattle.strip_turns.specs.Passes.{card};
ghost use Rattle.worker_gate.specs.Workers.{IsDone, IsFresh};
ghost use Rattle.worker_gate.specs.Work.{is_short, turns_due};

use crate::gate::Gate;
use crate::round::Round;
use strip_turns::{Board, Pass, Turned};

/// The edits that a turn does at the most.
const EDITS: u32 = 8;

/// A worker's pass, and whether the worker ran out of memory.
#[derive(Drop)]
pub struct Worker {
    pub pass: Pass,
    pub short: bool,
}

/// Draws tickets and makes a turn for each, until a ticket is past the turns that are due or a turn finds no memory. A strip that
/// is out is left to those that come later: the worker goes on with its next ticket.
pub(crate) fn work<G: Gate>(board: &Board, worker: &mut Worker, gate: &G)
    requires { IsFresh board.now worker.old }
    ensures done { IsDone board.now worker.new }
    ensures number { worker.new.pass.seat.me.0.number ≡ worker.old.pass.seat.me.0.number }
{
    let mut round = Round::first_of(board.plan().grid().strips());
    let due = turns_due(board);
    let mut ticket = board.claim(&mut worker.pass);
    while ticket < due {
        let strip = round.strip_of(ticket);
        gate.enter(strip, ticket);
        let turned = board.turn(&mut worker.pass, strip);
        if is_short(turned) {
            worker.short = true;
            return;
        }
        ticket = board.claim(&mut worker.pass);
    }
}

/// How many tickets are turns: for each strip as many as take it to the last version.
fn turns_due(board: &Board) -> u64
    ensures due { result ≡ turns_due (card board.now) }
    ensures few { result < 2 ^ 32 }
{
    let plan = board.plan();
    let grid = plan.grid();
    // Reading a field of the grid gives the prover its invariant: it has few strips.
    let _valid = &grid.origin;
    u64::from(grid.strips()) * u64::from(plan.edits().div_ceil(EDITS))
}

/// Whether a turn found no memory.
fn is_short(turned: Turned) -> bool
    ensures { result ≡ is_short turned }
{
    matches!(turned, Turned::NoMemory { .. })
}
