ghost use Rattle.std.specs.Prelude.{◌≡◌, ◌≤◌, [], All, IfOk, vec_capacity};
ghost use Rattle.std.specs.Mem.Slots.{slots_items, slots_len, IsFull};
ghost use Rattle.job_model.specs.Tasks.{Job};
ghost use Rattle.turn_core.specs.World.{AreOfPlan, AreStrips};
ghost use Rattle.strip_turns.specs.Plays.{IsAlone};
ghost use Rattle.strip_turns.specs.Passes.{card, IsPass};
ghost use Rattle.strip_turns.specs.Closed.{AllThere, AllOut, AllDrawn, AreBoardStrips};
ghost use Rattle.strip_turns.specs.Sound.{strip_word};

use crate::board::{Board, Pass};
use crate::moves::{version_of, word_at};
use atomic_table::Closed;
use std::alloc::Global;
use std::marker::Model;
use strip_journal::Strip;
use strip_plan::Plan;
use turn_core::AheadStrip;
use vf_io::NoMemory;

impl Board {
    /// The strips, in order. When out of memory they are gone.
    pub fn close(self, alloc: Global, pass: Pass) -> Result<Vec<Strip>, NoMemory>
        requires pass { IsPass self pass }
        requires alone { IsAlone pass.seat.me.0 }
        ensures strips { IfOk result (λ strips. AreBoardStrips (card self) pass.seat.me.0 strips.items) }
        ensures drawn { IfOk result (λ _. AllDrawn pass.seat.me.0) }
        // They are the plan's, and those of the job whose strips were put in.
        ensures plan { IfOk result (λ strips. AreOfPlan self.plan strips.items) }
        ensures job { IfOk result (λ strips. (job : Job) → AreStrips job (card self).strips → AreStrips job strips.items) }
    {
        let Board { plan, table } = self;
        let Pass { seat } = pass;
        let closed = table.close_with(seat);
        let count = plan.grid().strips();
        match Vec::with_capacity(alloc, count as usize) {
            Ok(strips) => as_seen(alloc, &plan, taken_out(closed, count, strips)),
            Err(_) => {
                given_up(closed);
                Err(NoMemory)
            }
        }
    }
}

/// A strip that came out of its slot, and the version at which it is seen.
#[derive(Drop)]
struct TakenOut {
    strip: AheadStrip,
    done: u32,
}

impl Model for TakenOut {
    ghost use Rattle.std.specs.Prelude.{◌≡◌};
    ghost use Rattle.strip_journal.specs.Strips.{StripOf};

    ghost Value = { StripOf };

    ghost view = { λ t. t.strip };

    ghost invariant = { λ t. t.done ≡ t.strip.done };
}

impl TakenOut {
    /// The strip as it is seen.
    fn into_strip(self, plan: &Plan) -> Result<Strip, NoMemory>
        requires plan { self.job.plan ≡ plan.now }
        ensures { IfOk result (λ strip. strip ≡ self) }
    {
        let TakenOut { strip, done } = self;
        strip.into_strip(plan, done)
    }
}

/// Takes each strip out, `count` of them.
fn taken_out(
    mut closed: Closed<Option<AheadStrip>, Global>,
    count: u32,
    mut strips: Vec<TakenOut>,
) -> Vec<TakenOut>
    requires full { IsFull closed.slots × IsFull closed.words }
    requires count { count ≡ slots_len closed.slots }
    requires words { slots_len closed.words ≡ strip_word count }
    requires there { AllThere (slots_items closed.words) (slots_items closed.slots) }
    requires room { (strips.items ≡ []) × (count ≤ vec_capacity strips) }
    ensures { AllOut (slots_items closed.slots) result.items count }
{
    for number in 0..count {
        let done = version_of(closed.word(word_at(number)));
        let Some(strip) = closed.take(number as usize) else {
            unreachable!()
        };
        strips.push_reserved(TakenOut { strip, done });
    }
    closed.free();
    strips
}

/// Drops each strip.
fn given_up(mut closed: Closed<Option<AheadStrip>, Global>)
    requires full { IsFull closed.slots }
{
    for i in 0..closed.slot_count() {
        drop(closed.take(i));
    }
    closed.free();
}

/// The strips as they are seen.
fn as_seen(alloc: Global, plan: &Plan, taken: Vec<TakenOut>) -> Result<Vec<Strip>, NoMemory>
    requires plan { All (λ piece. piece.job.plan ≡ plan.now) taken.items }
    ensures { IfOk result (λ strips. strips.items ≡ taken.items) }
{
    let mut strips = Vec::with_capacity(alloc, taken.len())?;
    for piece in taken {
        strips.push(piece.into_strip(plan)?)?;
    }
    Ok(strips)
}
