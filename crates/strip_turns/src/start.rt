ghost use Rattle.std.specs.Prelude.{◌≡◌, [], map, length, true, IfOk, Some};
ghost use Rattle.turn_core.specs.World.{AreOfPlan};
ghost use Rattle.strip_turns.specs.Cards.{card_of};
ghost use Rattle.strip_turns.specs.Sound.{strip_word};
ghost use Rattle.strip_turns.specs.Starts.{card_with, AreHome, AreWithin, Starts};
ghost use Rattle.strip_turns.specs.Views.{fresh};

use crate::board::{Board, Pass};
use crate::moves::{APART, home_word, word_at};
use crate::rule::Sound;
use crate::view::{Key, View};
use atomic_table::{Seat, Table};
use std::alloc::Global;
use std::snapshot::Snapshot;
use strip_journal::Strip;
use strip_plan::Plan;
use turn_core::AheadStrip;
use vf_io::NoMemory;

impl Board {
    /// A board on which each strip is home, and its first pass. Fails only when out of memory.
    pub fn new(alloc: Global, plan: Plan, strips: Vec<Strip>) -> Result<(Board, Pass), NoMemory>
        requires { AreOfPlan plan strips.items }
        ensures { IfOk result (λ b. Starts plan strips.items b.0 b.1) }
    {
        // The edits are few.
        let _edits = plan.edits();
        let (table, seat) = laid_out(alloc, &plan, strips)?;
        Ok((Board { plan, table }, Pass { seat }))
    }
}

/// A board's table, and a seat at it.
type TableAndSeat = (
    Table<Option<AheadStrip>, View, Key, Sound, Global>,
    Seat<Option<AheadStrip>, View>,
);

/// A table on which each strip is home, and the first seat at it.
fn laid_out(alloc: Global, plan: &Plan, strips: Vec<Strip>) -> Result<TableAndSeat, NoMemory>
    requires { AreOfPlan plan.now strips.items }
    ensures words { IfOk result (λ t. t.0.shared.table_id.words ≡ strip_word t.0.shared.table_id.slots) }
    ensures slots { IfOk result (λ t. t.0.shared.table_id.slots ≡ length strips.items) }
    ensures card { IfOk result (λ t. card_of t.0.shared.key ≡ card_with plan.now strips.items) }
    ensures own { IfOk result (λ t. t.1.table_id ≡ t.0.shared.table_id) }
    ensures me { IfOk result (λ t. t.1.me ≡ (fresh true 0 (Some (card_with plan.now strips.items)), [])) }
{
    let key = Key {
        plan: Snapshot::of(plan),
        strips: Snapshot::of(&strips),
    };
    let words = home_words(alloc, plan, &strips)?;
    let slots = filled_slots(alloc, strips)?;
    match Table::new(alloc, words.as_slice(), slots, &key) {
        Ok(laid) => Ok(laid),
        Err(_) => Err(NoMemory),
    }
}

/// The ticket word and each strip's, far enough apart.
fn home_words(alloc: Global, plan: &Plan, strips: &Vec<Strip>) -> Result<Vec<u64>, NoMemory>
    requires { AreOfPlan plan.now strips.now.items }
    ensures home { IfOk result (λ words. AreHome strips.now.items (length strips.now.items) words.items) }
    ensures within { IfOk result (λ _. AreWithin (length plan.now.edits) strips.now.items (length strips.now.items)) }
{
    let count = plan.grid().strips();
    // The edits are few.
    let _edits = plan.edits();
    let mut words = vec![in alloc; 0u64; (count as usize + 1) * APART]?;
    for strip in 0..count {
        let done = strips[strip as usize].done();
        words[word_at(strip)] = home_word(done);
    }
    Ok(words)
}

/// A slot with a strip in it, as it is.
fn put_in(strip: Strip) -> Option<AheadStrip>
    ensures { result ≡ Some strip }
{
    Some(AheadStrip::of(strip))
}

/// Each strip in its slot.
fn filled_slots(alloc: Global, strips: Vec<Strip>) -> Result<Vec<Option<AheadStrip>>, NoMemory>
    ensures { IfOk result (λ slots. slots.items ≡ map Some strips.items) }
{
    match strips.into_iter().map(put_in).collect(alloc) {
        Ok(slots) => Ok(slots),
        Err(_) => Err(NoMemory),
    }
}
