ghost use Rattle.std.specs.Prelude.{◌≡◌, ℕ, ◌+◌, ◌<◌, ◌^◌, Some, true, false};
ghost use Rattle.strip_turns.specs.Log.{tally, drew};
ghost use Rattle.strip_turns.specs.Views.{with_draw, fresh, with_split, with_pass};
ghost use Rattle.strip_turns.specs.Passes.{card, IsPass};

use crate::board::{Board, Pass};
use crate::rule::{Cut, Drawing};
use strip_plan::Plan;

impl Board {
    /// Draws the next ticket. It is above each that the pass has drawn or taken in before.
    pub fn claim(&self, pass: &mut Pass) -> u64
        requires pass { IsPass self.now pass.old }
        requires few { pass.old.seat.me.0.drawn < 2 ^ 32 }
        ensures pass { IsPass self.now pass.new }
        ensures drew { pass.new.seat.me.0 ≡ with_draw result pass.old.seat.me.0 }
        ensures above { (x : ℕ) → 0 < tally (drew x) pass.old.seat.me.0.log → x < result }
    {
        self.table.shared.fetch_add::<Drawing>(&mut pass.seat, 0, 1)
    }

    /// A new pass, that did nothing yet. It takes no memory.
    pub fn split(&self, pass: &mut Pass) -> Pass
        requires pass { IsPass self.now pass.old }
        requires first { pass.old.seat.me.0.first ≡ true }
        requires few { pass.old.seat.me.0.splits < 64 }
        ensures pass { IsPass self.now pass.new }
        ensures split { pass.new.seat.me.0 ≡ with_split pass.old.seat.me.0 }
        ensures new { IsPass self.now result }
        ensures fresh { result.seat.me.0 ≡ fresh false (pass.old.seat.me.0.splits + 1) (Some (card self.now)) }
    {
        Pass {
            seat: self.table.shared.split_seat::<Cut>(&mut pass.seat),
        }
    }

    /// The first pass takes in what another did.
    pub fn merge(&self, pass: &mut Pass, other: Pass)
        requires pass { IsPass self.now pass.old }
        requires first { pass.old.seat.me.0.first ≡ true }
        requires other { IsPass self.now other }
        ensures pass { IsPass self.now pass.new }
        ensures joined { pass.new.seat.me.0 ≡ with_pass pass.old.seat.me.0 other.seat.me.0 }
    {
        let Pass { seat } = other;
        self.table.shared.join_seat::<Cut>(&mut pass.seat, seat);
    }

    /// The plan of the strips.
    pub fn plan(&self) -> &Plan
        ensures plan { result.now ≡ self.now.plan }
        ensures card { result.now ≡ (card self.now).plan }
    {
        &self.plan
    }
}
