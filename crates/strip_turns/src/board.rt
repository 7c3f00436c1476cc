ghost use Rattle.std.specs.Prelude.{◌≡◌, ◌≤◌, length};
ghost use Rattle.ray_grid.specs.Strips.{strips_of};
ghost use Rattle.edit_plan.specs.Limits.{most_edits};
ghost use Rattle.turn_core.specs.World.{AreOfPlan};
ghost use Rattle.strip_turns.specs.Sound.{strip_word};

use crate::rule::Sound;
use crate::view::{Key, View};
use atomic_table::{Seat, Table};
use std::alloc::Global;
use strip_plan::Plan;
use turn_core::AheadStrip;

/// A slot and a version word for each strip, and a ticket word.
#[derive(Drop)]
pub struct Board {
    pub(crate) plan: Plan,
    pub(crate) table: Table<Option<AheadStrip>, View, Key, Sound, Global>,
    ghost words: { table.shared.table_id.words ≡ strip_word table.shared.table_id.slots },
    ghost slots: { table.shared.table_id.slots ≡ length (strips_of plan.grid) },
    ghost card: { table.shared.key.plan.value ≡ plan },
    ghost whole: { AreOfPlan table.shared.key.plan.value table.shared.key.strips.value.items },
    ghost few: { length table.shared.key.plan.value.edits ≤ most_edits },
}

/// A seat at a board. It has no bytes.
#[derive(Drop)]
pub struct Pass {
    pub(crate) seat: Seat<Option<AheadStrip>, View>,
}
