ghost use Rattle.std.specs.Prelude.{◌≡◌, ℕ, ◌+◌, ◌-◌, ◌<◌, ◌≤◌, true, false, All, if◌then◌else◌, not, MatchOption, length, slice_index};
ghost use Rattle.job_counts.specs.declared.totals.PointState.TheVariants.{Absent, Kept, Possible, Removed};
ghost use Rattle.job_counts.specs.Counts.{AreWithin};
ghost use Rattle.job_model.specs.Points.{left_moves, state_after, strip_points, totals_over};
ghost use Rattle.strip_marks.specs.Marks.{AreInOrder, among, point_at, points_at, possible_of, sure_of};
ghost use Rattle.strip_journal.specs.Entries.{AreAscending, HasNo, changes_of, counts_of_hits, edit_at, entry_at, possible_ahead, removed_ahead, was};
ghost use Rattle.strip_journal.specs.Journals.{IsJournal, job_of};
ghost use Rattle.strip_journal.specs.Strips.{most_before};
ghost use Rattle.strip_journal.specs.Found.{AddsEntry, AddsLeft, HasRoomAt, IsFoundBy};

use crate::changes::ChangesPart;
use crate::entry::Entry;
use crate::journal::Journal;
use job_counts::{Counts, PointState, Totals};
use std::sync::ledger::Ledger;
use vf_spans::bits::has_bit;
use vf_steps::Steps;

/// Whether the changes make index l of ray n sure, and possible.
pub fn changed_at(changes: &ChangesPart<'_>, n: u32, l: u32) -> (bool, bool)
    requires { AreInOrder changes.now }
    ensures sure { result.0 ≡ among sure_of changes.now n l }
    ensures possible { result.1 ≡ among possible_of changes.now n l }
{
    let word = l / 64;
    let place = changes.place_of(n, word);
    if place >= changes.len() {
        return (false, false);
    }
    let change = changes.get(place);
    if change.ray != n || change.word != word {
        return (false, false);
    }
    (
        has_bit(change.sure, l % 64),
        has_bit(change.possible, l % 64),
    )
}

/// Whether an index was in a set before an edit that changed it there or not, by whether it is there after it.
fn was(is_undo: bool, changed: bool, after: bool) -> bool
    ensures { result ≡ was is_undo changed after }
{
    if is_undo {
        after || changed
    } else {
        after && !changed
    }
}

fn state_of(stock: bool, sure: bool, possible: bool) -> PointState
    ensures { result ≡ (if not stock then Absent else (if sure then Removed else (if possible then Possible else Kept))) }
{
    if !stock {
        PointState::Absent
    } else if sure {
        PointState::Removed
    } else if possible {
        PointState::Possible
    } else {
        PointState::Kept
    }
}

impl Journal {
    /// The place of an edit's entry, if it had an effect.
    pub fn entry_of(&self, edit: u32) -> Option<usize>
        requires { AreAscending self.now.entries.items }
        ensures { MatchOption result (HasNo self.now.entries.items edit)
            (λ place. (place < length self.now.entries.items) × (edit_at self.now.entries.items place ≡ edit)) }
    {
        let place = self.entries.place_of(edit);
        if place < self.entries.len() && self.entries.edit_at(place) == edit {
            Some(place)
        } else {
            None
        }
    }

    /// How many stock points are removed, and at how many a move is possible, before the entry at a place.
    pub fn totals_ahead(&self, place: usize) -> (u32, u32)
        requires { place ≤ length self.now.entries.items }
        ensures removed { result.0 ≡ removed_ahead self.now.entries.items place }
        ensures possible { result.1 ≡ possible_ahead self.now.entries.items place }
    {
        if place == 0 {
            return (0, 0);
        }
        let entry = self.entries.get(place - 1);
        (entry.removed, entry.possible)
    }

    /// The totals at a version.
    pub fn totals_at(&self, version: u32) -> Totals
        requires journal { IsJournal (job_of self.now) self.now }
        requires version { version ≤ self.now.done }
        ensures { result ≡ totals_over (job_of self.now) (strip_points self.now.plan.value.grid self.now.number)
            (left_moves self.now.plan.value version) }
    {
        let place = self.entries.place_of(version);
        let (removed, possible) = self.totals_ahead(place);
        Totals {
            removed: u64::from(removed),
            possible: u64::from(possible),
            of: u64::from(self.of),
        }
    }

    /// What the edit of the entry at a place found: new stock is what the totals rose by.
    fn counts_at(&self, place: usize) -> Counts
        requires place { place < length self.now.entries.items }
        requires removed { removed_ahead self.now.entries.items place ≤ (entry_at self.now.entries.items place).removed }
        requires possible { possible_ahead self.now.entries.items place ≤ (entry_at self.now.entries.items place).possible }
        ensures { result ≡ counts_of_hits (entry_at self.now.entries.items place).hits
            ((entry_at self.now.entries.items place).removed - removed_ahead self.now.entries.items place)
            ((entry_at self.now.entries.items place).possible - possible_ahead self.now.entries.items place) }
    {
        let (removed, possible) = self.totals_ahead(place);
        let entry = self.entries.get(place);
        entry
            .hits
            .with_stock(entry.removed - removed, entry.possible - possible)
    }

    /// What the k-th edit of the line found, left or dropped.
    pub fn found(&self, k: u32) -> Counts
        requires journal { IsJournal (job_of self.now) self.now }
        requires stands { k < length self.now.line }
        ensures { IsFoundBy self.now k result }
    {
        match self.entry_of(self.line.get(k)) {
            None => Counts::none(),
            Some(place) => self.counts_at(place),
        }
    }

    /// The changes that an entry made, took back or gave again.
    fn changes_of(&self, entry: &Entry) -> ChangesPart<'_>
        requires order { entry.now.from ≤ entry.now.to }
        requires within { entry.now.to ≤ length self.now.changes.items }
        ensures { result ≡ changes_of self.now.changes.items entry.now }
    {
        self.changes.part(entry.from, entry.to)
    }

    /// Whether a point was sure, and possible, before an entry's edit, by whether it is after it.
    fn look_back(&self, entry: &Entry, n: u32, l: u32, after: (bool, bool)) -> (bool, bool)
        requires order { entry.now.from ≤ entry.now.to }
        requires within { entry.now.to ≤ length self.now.changes.items }
        requires sorted { AreInOrder (changes_of self.now.changes.items entry.now) }
        ensures sure { result.0 ≡ was entry.now.is_undo (among sure_of (changes_of self.now.changes.items entry.now) n l) after.0 }
        ensures possible { result.1 ≡ was entry.now.is_undo (among possible_of (changes_of self.now.changes.items entry.now) n l) after.1 }
    {
        let (sure, possible) = changed_at(&self.changes_of(entry), n, l);
        (
            was(entry.is_undo, sure, after.0),
            was(entry.is_undo, possible, after.1),
        )
    }

    /// The state of a point at a version, found from the newest sets by looking back, one step for each edit since that had an
    /// effect.
    pub fn state_at<L: Ledger>(
        &self,
        version: u32,
        n: u32,
        l: u32,
        steps: &mut Steps<L>,
    ) -> PointState
        requires journal { IsJournal (job_of self.now) self.now }
        requires version { version ≤ self.now.done }
        requires ray { n < length self.now.rays }
        requires point { l < points_at self.now.plan.value.grid self.now.number n }
        ensures state { result ≡ state_after (job_of self.now) (left_moves self.now.plan.value version)
            (point_at self.now.plan.value.grid self.now.number n l) }
        ensures cost { steps.new ≤ steps.old + (self.now.done - version) }
    {
        let ray = self.rays.ray(n);
        let mut marks = (ray.has_sure(l), ray.has_possible(l));
        let mut place = self.entries.len();
        while place > 0 && self.entries.edit_at(place - 1) >= version {
            place -= 1;
            steps.tick();
            marks = self.look_back(&self.entries.get(place), n, l, marks);
        }
        state_of(ray.has_stock(l), marks.0, marks.1)
    }

    /// The place of an edit among those that are left, if it is one of them.
    fn left_of(&self, edit: u32) -> Option<usize>
        requires { IsJournal (job_of self.now) self.now }
        ensures { MatchOption result ((k : ℕ) → k < self.now.at → slice_index self.now.line k ≡ edit → ⊥)
            (λ k. (k < self.now.at) × (slice_index self.now.line k ≡ edit)) }
    {
        self.line.place_of(edit, self.at)
    }

    /// Adds what the edit of the entry at a place found to the count of its move, if that is left.
    fn add_entry(&self, place: usize, counts: &mut [Counts])
        requires journal { IsJournal (job_of self.now) self.now }
        requires place { place < length self.now.entries.items }
        requires many { length counts.old ≡ self.now.at }
        requires room { HasRoomAt self.now place counts.old }
        ensures { AddsEntry self.now place counts.old counts.new }
    {
        let edit = self.entries.edit_at(place);
        if let Some(k) = self.left_of(edit) {
            let found = self.counts_at(place);
            counts[k] = counts[k].plus(&found);
        }
    }

    /// Adds what each of the moves that are left found to the counts at its place: one walk over what is kept.
    pub fn add_found(&self, counts: &mut [Counts])
        requires journal { IsJournal (job_of self.now) self.now }
        requires many { length counts.old ≡ self.now.at }
        requires room { All (AreWithin most_before) counts.old }
        ensures { AddsLeft self.now counts.old counts.new }
    {
        for place in 0..self.entries.len() {
            self.add_entry(place, counts);
        }
    }
}
