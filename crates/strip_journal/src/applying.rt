ghost use Rattle.std.specs.Prelude.{◌≡◌, ℕ, ◌+◌, ◌-◌, ◌^◌, ◌<◌, ◌≤◌, false, true, Some, All, IfOk, OnOk, OnErr, length, slice_get};
ghost use Rattle.ray_grid.specs.Strips.{strips_of};
ghost use Rattle.edit_plan.specs.declared.edit.Edit.TheVariants.{Apply};
ghost use Rattle.job_counts.specs.Counts.{AreWithin};
ghost use Rattle.job_model.specs.Tasks.{JobMove};
ghost use Rattle.strip_plan.specs.Plans.{HasNumber};
ghost use Rattle.strip_marks.specs.Marks.{AreRays, HaveSameSets, IsChangeOn, IsMarkedStrip};
ghost use Rattle.strip_journal.specs.declared.entry.Hits.{Hits};
ghost use Rattle.strip_journal.specs.Entries.{hits_of};
ghost use Rattle.strip_journal.specs.Journals.{IsAt, IsJournal, job_of};
ghost use Rattle.strip_journal.specs.Steps.{CanStand, FitsEntry, HasRoom, HasSameEdits, IsApplied, IsEntered, IsStood, does_nothing};

use crate::entry::{Entry, Hits};
use crate::journal::Journal;
use crate::rays::give_all;
use std::mem;
use strip_marks::{MoveChanges, mark_strip};
use strip_plan::Plan;
use vf_io::NoMemory;

/// The most changes that a strip keeps.
const MOST_CHANGES: usize = u32::MAX as usize;

/// Whether a move changes nothing and finds nothing.
fn does_nothing(marked: &MoveChanges) -> bool
    requires { AreWithin (2 ^ 32 - 1) marked.now.counts }
    ensures { result ≡ does_nothing marked.now.changes.items marked.now.counts }
{
    marked.changes.is_empty() && Hits::of_counts(&marked.counts).is_none()
}

impl Journal {
    /// Room for `changes` changes and for an entry with these hits.
    fn make_room(&mut self, changes: usize, hits: &Hits) -> Result<(), NoMemory>
        ensures edits { HasSameEdits self.old self.new }
        ensures rays { self.new.rays ≡ self.old.rays }
        ensures room { OnOk result (HasRoom self.new changes hits.now) }
    {
        // A place in the list of changes is a number of 32 bits: more would take seventy gigabytes.
        if self.changes.len() > MOST_CHANGES || changes > MOST_CHANGES - self.changes.len() {
            return Err(NoMemory);
        }
        self.changes.reserve(changes)?;
        self.entries.reserve(hits)
    }

    /// Adds this edit to those that are left, in place of those that are dropped.
    fn push_edit(&mut self) -> Result<(), NoMemory>
        requires { CanStand self.old }
        ensures ok { OnOk result (IsStood self.old self.new) }
        ensures room { (changes : ℕ) (hits : Hits) → HasRoom self.old changes hits → HasRoom self.new changes hits }
        ensures edits { OnErr result (HasSameEdits self.old self.new) }
        ensures rays { OnErr result (self.new.rays ≡ self.old.rays) }
    {
        self.line.put(self.at, self.done)?;
        self.at += 1;
        self.done += 1;
        Ok(())
    }

    /// Takes over what a move changes or finds, with the entry of its edit. It takes no memory.
    fn enter(&mut self, edit: u32, marked: MoveChanges)
        requires room { HasRoom self.old (length marked.changes.items) (hits_of marked.counts) }
        requires on { All (IsChangeOn self.old.rays) marked.changes.items }
        requires fits { FitsEntry self.old marked.counts }
        requires some { does_nothing marked.changes.items marked.counts ≡ false }
        ensures { IsEntered self.old self.new edit marked.changes.items marked.counts }
    {
        let MoveChanges {
            mut changes,
            counts,
        } = marked;
        let (removed, possible) = self.totals_ahead(self.entries.len());
        let from = self.changes.len() as u32;
        self.changes.append(changes.as_slice());
        let to = self.changes.len() as u32;
        give_all(&mut self.rays, changes.as_slice());
        changes.clear();
        let entry = Entry {
            edit,
            from,
            to,
            is_undo: false,
            hits: Hits::of_counts(&counts),
            removed: removed + counts.removed as u32,
            possible: possible + counts.possible as u32,
        };
        self.entries.push(&entry);
        self.room = changes;
    }

    /// Takes over what a move changes or finds, if it does, and adds its edit to those that are left. What may fail comes first.
    fn take_over(&mut self, marked: MoveChanges) -> Result<(), NoMemory>
        requires few { length self.old.changes.items < 2 ^ 32 }
        requires on { All (IsChangeOn self.old.rays) marked.changes.items }
        requires fits { FitsEntry self.old marked.counts }
        requires stands { CanStand self.old }
        ensures applied { OnOk result (IsApplied self.old self.new marked.changes.items marked.counts) }
        ensures few { OnOk result (length self.old.changes.items + length marked.changes.items < 2 ^ 32) }
        ensures edits { OnErr result (HasSameEdits self.old self.new) }
        ensures rays { OnErr result (self.new.rays ≡ self.old.rays) }
    {
        if does_nothing(&marked) {
            self.room = marked.changes;
            return self.push_edit();
        }
        self.make_room(marked.changes.len(), &Hits::of_counts(&marked.counts))?;
        let edit = self.done;
        self.push_edit()?;
        self.enter(edit, marked);
        Ok(())
    }

    /// What a move of a plan changes, and what it finds, by the sets of the rays. The sets and the edits stay.
    pub fn mark(&mut self, plan: &Plan, number: u32) -> Result<MoveChanges, NoMemory>
        requires strip { self.old.number < length (strips_of plan.now.grid) }
        requires rays { AreRays plan.now.grid self.old.number self.old.rays }
        requires number { number < length plan.now.moves }
        ensures edits { HasSameEdits self.old self.new }
        ensures same { HaveSameSets self.old.rays self.new.rays }
        ensures marked { IfOk result (λ m. (move : JobMove) → HasNumber plan.now number move
            → IsMarkedStrip plan.now move self.old.number self.old.rays self.new.rays m.changes.items m.counts) }
    {
        let room = mem::replace(&mut self.room, Vec::new(self.alloc));
        mark_strip(room, &mut self.rays, plan, number, self.number)
    }

    /// Applies a move of the plan.
    pub fn apply(&mut self, plan: &Plan, number: u32) -> Result<(), NoMemory>
        requires journal { IsJournal (job_of self.old) self.old }
        requires plan { self.old.plan.value ≡ plan.now }
        requires edit { slice_get plan.now.edits self.old.done ≡ Some (Apply number) }
        requires number { number < length plan.now.moves }
        ensures ok { OnOk result (IsAt self.old self.new (self.old.done + 1)) }
        ensures unchanged { OnErr result (IsAt self.old self.new self.old.done) }
    {
        let marked = self.mark(plan, number)?;
        self.take_over(marked)
    }
}
