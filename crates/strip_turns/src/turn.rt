ghost use Rattle.std.specs.Prelude.{◌≡◌, ◌<◌, ◌^◌, length, IsSomeAnd};
ghost use Rattle.ray_grid.specs.Strips.{strips_of};
ghost use Rattle.strip_turns.specs.Passes.{card, IsPass, IsTakenAt, HasStrip, Worked};
ghost use Rattle.strip_turns.specs.Turns.{Turns};

use crate::board::{Board, Pass};
use crate::moves::{give_back, hold};
use crate::view::View;
use atomic_table::Seat;
use strip_plan::Plan;
use turn_core::AheadStrip;

/// How a turn ended.
#[derive(Clone, Copy, PartialEq, Eq)]
pub enum Turned {
    /// The strip went from one version to another.
    Moved { from: u32, to: u32 },
    /// The strip was out.
    Busy,
    /// There was no memory for all edits of the turn. The strip went this far.
    NoMemory { from: u32, to: u32 },
}

impl Board {
    /// Takes the strip where it is home, does its next edits, at most eight, in its slot, and gives it back. It doesn't wait.
    pub fn turn(&self, pass: &mut Pass, strip: u32) -> Turned
        requires pass { IsPass self.now pass.old }
        requires strip { strip < length (strips_of self.now.plan.grid) }
        requires few { pass.old.seat.me.0.missed < 2 ^ 32 }
        ensures pass { IsPass self.now pass.new }
        ensures told { Turns (card self.now) strip result pass.old.seat.me.0 pass.new.seat.me.0 }
    {
        let Some(from) = hold(self, &mut pass.seat, strip) else {
            return Turned::Busy;
        };
        match turn_held(self, &mut pass.seat, strip, from) {
            Ok((from, to)) => {
                give_back(self, &mut pass.seat, strip, from, to);
                Turned::Moved { from, to }
            }
            Err((from, to)) => {
                give_back(self, &mut pass.seat, strip, from, to);
                Turned::NoMemory { from, to }
            }
        }
    }
}

/// Does the next edits on the strip in the seat's slot, that was taken at `from`.
fn turn_held(
    board: &Board,
    seat: &mut Seat<Option<AheadStrip>, View>,
    strip: u32,
    from: u32,
) -> Result<(u32, u32), (u32, u32)>
    requires own { seat.old.table_id ≡ board.now.table.shared.table_id }
    requires held { HasStrip seat.old.me strip (λ piece. IsTakenAt board.now.plan from piece) }
    ensures own { seat.new.table_id ≡ seat.old.table_id }
    ensures view { seat.new.me.0 ≡ seat.old.me.0 }
    ensures worked { HasStrip seat.old.me strip (λ before. HasStrip seat.new.me strip (λ after.
        Worked board.now.plan before after result)) }
{
    let slot = seat.slot_mut(&board.table.shared, strip as usize);
    turn_slot(slot, &board.plan, from)
}

/// Does the next edits on the strip in a slot, that was taken at `from`.
fn turn_slot(
    slot: &mut Option<AheadStrip>,
    plan: &Plan,
    from: u32,
) -> Result<(u32, u32), (u32, u32)>
    requires { IsSomeAnd slot.old (IsTakenAt plan.now from) }
    ensures { IsSomeAnd slot.old (λ before. IsSomeAnd slot.new (λ after. Worked plan.now before after result)) }
{
    match slot {
        Some(piece) => piece.turn(plan, from),
        None => unreachable!(),
    }
}
