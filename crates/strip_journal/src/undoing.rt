ghost use Rattle.std.specs.Prelude.{◌≡◌, ◌+◌, ◌-◌, ◌<◌, ◌≤◌, true, false, All, Some, OnOk, OnErr, if◌then◌else◌, length, slice_get};
ghost use Rattle.edit_plan.specs.declared.edit.Edit.TheVariants.{Redo, Undo};
ghost use Rattle.edit_plan.specs.Limits.{most_edits};
ghost use Rattle.strip_marks.specs.Marks.{IsChangeOn};
ghost use Rattle.strip_journal.specs.Entries.{changes_of, possible_ahead, removed_ahead};
ghost use Rattle.strip_journal.specs.Journals.{IsAt, IsJournal, job_of};
ghost use Rattle.strip_journal.specs.Steps.{AreRaysTurned, HasSameEdits, HasSameLine, IsMovedTo, IsTurnedBy, IsTurnedFrom};

use crate::changes::Changes;
use crate::entry::{Entry, Hits};
use crate::journal::Journal;
use crate::rays::change_all;
use edit_plan::Edit;
use ray_words::StripRays;
use strip_plan::Plan;
use vf_io::NoMemory;

/// Takes the points of an entry's changes away, or gives them again. It takes no memory.
pub fn turn_changes(rays: &mut StripRays, changes: &Changes, entry: &Entry, is_undo: bool)
    requires order { entry.now.from ≤ entry.now.to }
    requires within { entry.now.to ≤ length changes.now.items }
    requires on { All (IsChangeOn rays.old) changes.now.items }
    ensures { AreRaysTurned rays.old rays.new (changes_of changes.now.items entry.now) is_undo }
{
    change_all(rays, &changes.part(entry.from, entry.to), is_undo);
}

impl Journal {
    /// The totals from which an Undo of the edit of an entry, or a Redo, starts again.
    fn totals_again(&self, place: usize, is_undo: bool) -> (u32, u32)
        requires { place < length self.now.entries.items }
        ensures removed { result.0 ≡ (if is_undo then removed_ahead self.now.entries.items place
            else removed_ahead self.now.entries.items (place + 1)) }
        ensures possible { result.1 ≡ (if is_undo then possible_ahead self.now.entries.items place
            else possible_ahead self.now.entries.items (place + 1)) }
    {
        if is_undo {
            self.totals_ahead(place)
        } else {
            let entry = self.entries.get(place);
            (entry.removed, entry.possible)
        }
    }

    /// Takes back the changes of an edit's entry, or gives them again.
    fn turn_entry(&mut self, place: usize, is_undo: bool) -> Result<(), NoMemory>
        requires journal { IsJournal (job_of self.old) self.old }
        requires place { place < length self.old.entries.items }
        ensures ok { OnOk result (IsTurnedBy self.old self.new place is_undo) }
        ensures line { HasSameLine self.old self.new }
        ensures edits { OnErr result (HasSameEdits self.old self.new) }
        ensures rays { OnErr result (self.new.rays ≡ self.old.rays) }
    {
        let hits = Hits::none();
        self.entries.reserve(&hits)?;
        let (removed, possible) = self.totals_again(place, is_undo);
        let source = self.entries.get(place);
        turn_changes(&mut self.rays, &self.changes, &source, is_undo);
        self.entries.push(&Entry {
            edit: self.done,
            from: source.from,
            to: source.to,
            is_undo,
            hits,
            removed,
            possible,
        });
        Ok(())
    }

    /// Takes back what an edit changed, or gives it again, where it had an effect.
    fn turn(&mut self, source: u32, is_undo: bool) -> Result<(), NoMemory>
        requires journal { IsJournal (job_of self.old) self.old }
        ensures ok { OnOk result (IsTurnedFrom self.old self.new source is_undo) }
        ensures line { HasSameLine self.old self.new }
        ensures edits { OnErr result (HasSameEdits self.old self.new) }
        ensures rays { OnErr result (self.new.rays ≡ self.old.rays) }
    {
        match self.entry_of(source) {
            None => Ok(()),
            Some(place) => self.turn_entry(place, is_undo),
        }
    }

    /// Moves to another place of the line, one edit on.
    fn move_to(&mut self, at: u32)
        requires { self.old.done < most_edits }
        ensures { IsMovedTo self.old self.new at (self.old.done + 1) }
    {
        self.at = at;
        self.done += 1;
    }

    /// Takes back the last move that is left, if one is.
    pub fn undo(&mut self) -> Result<(), NoMemory>
        requires journal { IsJournal (job_of self.old) self.old }
        requires edit { slice_get self.old.plan.value.edits self.old.done ≡ Some Undo }
        ensures ok { OnOk result (IsAt self.old self.new (self.old.done + 1)) }
        ensures unchanged { OnErr result (IsAt self.old self.new self.old.done) }
    {
        let at = self.at;
        if at == 0 {
            self.move_to(at);
            return Ok(());
        }
        let source = self.line.get(at - 1);
        self.turn(source, true)?;
        self.move_to(at - 1);
        Ok(())
    }

    /// Takes the last dropped move again, if there is one.
    pub fn redo(&mut self) -> Result<(), NoMemory>
        requires journal { IsJournal (job_of self.old) self.old }
        requires edit { slice_get self.old.plan.value.edits self.old.done ≡ Some Redo }
        ensures ok { OnOk result (IsAt self.old self.new (self.old.done + 1)) }
        ensures unchanged { OnErr result (IsAt self.old self.new self.old.done) }
    {
        let at = self.at;
        if at as usize >= self.line.len() {
            self.move_to(at);
            return Ok(());
        }
        let source = self.line.get(at);
        self.turn(source, false)?;
        self.move_to(at + 1);
        Ok(())
    }

    /// Does the edit of the plan that comes next.
    pub fn advance(&mut self, plan: &Plan) -> Result<(), NoMemory>
        requires journal { IsJournal (job_of self.old) self.old }
        requires plan { self.old.plan.value ≡ plan.now }
        requires next { self.old.done < length plan.now.edits }
        ensures ok { OnOk result (IsAt self.old self.new (self.old.done + 1)) }
        ensures unchanged { OnErr result (IsAt self.old self.new self.old.done) }
    {
        match plan.edit(self.done) {
            Edit::Apply(number) => self.apply(plan, number),
            Edit::Undo => self.undo(),
            Edit::Redo => self.redo(),
        }
    }
}
