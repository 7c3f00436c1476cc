ghost use Rattle.std.specs.Prelude.{◌≡◌, ◌*◌, ◌+◌, ◌≤◌, IfOk, Some, length, true};
ghost use Rattle.ray_grid.specs.Strips.{strips_of};
ghost use Rattle.strip_turns.specs.Passes.{card, IsPass};
ghost use Rattle.strip_turns.specs.Views.{fresh};

use sample_job::{edits, plan, stock, strips};
use std::alloc::Global;
use strip_turns::{Board, Pass};
use vf_io::NoMemory;

/// A board of the small job, with `rounds` rounds of edits for each of its nine strips, and its first pass.
pub fn board(alloc: Global, rounds: u32) -> Result<(Board, Pass), NoMemory>
    requires { rounds ≤ 9 }
    ensures pass { IfOk result (λ b. IsPass b.0 b.1) }
    ensures view { IfOk result (λ b. b.1.seat.me.0 ≡ fresh true 0 (Some (card b.0))) }
    ensures strips { IfOk result (λ b. length (strips_of b.0.plan.grid) ≡ 9) }
    ensures edits { IfOk result (λ b. length b.0.plan.edits ≡ 4 * rounds + 1) }
{
    let plan = plan(alloc, edits(alloc, rounds)?)?;
    let strips = strips(alloc, &plan, &stock(alloc)?)?;
    Board::new(alloc, plan, strips)
}
