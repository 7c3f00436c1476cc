ghost use Rattle.std.specs.Prelude.{◌≡◌, ◌<◌, ◌≤◌, length, IfOk, IfErr};
ghost use Rattle.ray_grid.specs.Strips.{strips_of};
ghost use Rattle.strip_turns.specs.Passes.{card, IsIdleSeat, RaisedOut};
ghost use Rattle.strip_turns.specs.Asks.{Short, AllRaised, SomeRaised};

use crate::board::Board;
use crate::moves::{put, wait_and_take};
use crate::view::View;
use atomic_table::Seat;
use std::sync::Wait;
use turn_core::AheadStrip;
use vf_io::NoMemory;

/// Takes a strip and raises it to a version, and returns the version at which it was taken. When out of memory it is back.
pub(crate) fn raised<R: Wait>(
    rt: &R,
    board: &Board,
    seat: &mut Seat<Option<AheadStrip>, View>,
    strip: u32,
    version: u32,
) -> Result<(AheadStrip, u32), NoMemory>
    requires idle { IsIdleSeat board.now seat.old }
    requires strip { strip < length (strips_of board.now.plan.grid) }
    requires version { version ≤ length board.now.plan.edits }
    ensures out { IfOk result (λ r. RaisedOut board.now strip r.1 version seat.old seat.new r.0) }
    ensures idle { IfErr result (λ _. IsIdleSeat board.now seat.new) }
    ensures short { IfErr result (λ _. Short (card board.now) strip version seat.old.me.0 seat.new.me.0) }
{
    let (mut piece, from) = wait_and_take(rt, board, seat, strip);
    match piece.raise(&board.plan, from, version) {
        Ok(()) => Ok((piece, from)),
        Err(at) => {
            put(board, seat, strip, from, at, piece);
            Err(NoMemory)
        }
    }
}

/// Raises all strips to a version.
pub(crate) fn all_raised<R: Wait>(
    rt: &R,
    board: &Board,
    seat: &mut Seat<Option<AheadStrip>, View>,
    version: u32,
) -> Result<(), NoMemory>
    requires idle { IsIdleSeat board.now seat.old }
    requires version { version ≤ length board.now.plan.edits }
    ensures idle { IsIdleSeat board.now seat.new }
    ensures raised { let strips = length (strips_of board.now.plan.grid) in
        IfOk result (λ _. AllRaised (card board.now) version strips seat.old.me.0 seat.new.me.0) }
    ensures some { let strips = length (strips_of board.now.plan.grid) in
        IfErr result (λ _. SomeRaised (card board.now) version 0 strips seat.old.me.0 seat.new.me.0) }
{
    for strip in 0..board.plan.grid().strips() {
        let (piece, from) = raised(rt, board, seat, strip, version)?;
        put(board, seat, strip, from, from.max(version), piece);
    }
    Ok(())
}
