ghost use Rattle.std.specs.Prelude.{◌≡◌, ℕ, ◌+◌, ◌-◌, ◌<◌, ◌≤◌, IfOk, length, slice_index};
ghost use Rattle.ray_grid.specs.Strips.{strip_at, strips_of};
ghost use Rattle.edit_plan.specs.Edits.{left_at};
ghost use Rattle.job_model.specs.Tasks.{JobMove};
ghost use Rattle.strip_plan.specs.Plans.{HasNumber};
ghost use Rattle.strip_marks.specs.Marks.{AreRays, HaveSameSets, strip_found};
ghost use Rattle.strip_journal.specs.Entries.{edit_at};
ghost use Rattle.strip_journal.specs.Journals.{IsJournal, job_of};
ghost use Rattle.strip_journal.specs.LookedBack.{IsBackAt, IsCutAlike, IsFoundSoFar, IsRaySoFar};
ghost use Rattle.strip_journal.specs.Steps.{HasSameEdits};

use crate::journal::Journal;
use crate::undoing::turn_changes;
use job_counts::Counts;
use ray_words::WordRay;
use std::marker::Model;
use strip_marks::MoveChanges;
use strip_plan::Plan;
use vf_io::NoMemory;

impl Journal {
    /// Goes back over the entry at a place: where its edit is of one of the first `left` moves that are left, the entry's changes are
    /// taken away. Returns how many of the moves are before it then. It takes no memory.
    fn back_over(&mut self, place: usize, left: u32) -> u32
        requires { IsBackAt self.old (place + 1) left }
        ensures back { IsBackAt self.new place result }
        ensures edits { HasSameEdits self.old self.new }
        ensures before { (m : ℕ) → m ≤ left → m < length self.old.line
            → slice_index self.old.line m ≤ edit_at self.old.entries.items place → m ≤ result }
    {
        let entry = self.entries.get(place);
        match self.line.place_of(entry.edit, left) {
            None => left,
            Some(k) => {
                turn_changes(&mut self.rays, &self.changes, &entry, true);
                k as u32
            }
        }
    }

    /// Goes back from the place after the first `at` of the moves that are left to the one after the first `left`. Returns how many
    /// entries are before it. It takes no memory.
    fn go_back(&mut self, from: usize, at: u32, left: u32) -> usize
        requires back { IsBackAt self.old from at }
        requires left { left ≤ at }
        ensures back { IsBackAt self.new result left }
        ensures edits { HasSameEdits self.old self.new }
    {
        if left == at {
            return from;
        }
        let edit = self.line.get(left);
        let mut place = from;
        let mut here = at;
        while place > 0 && self.entries.edit_at(place - 1) >= edit {
            place -= 1;
            here = self.back_over(place, here);
        }
        place
    }

    /// What a move of a plan finds by the sets of the rays. The sets and the edits stay.
    fn find(&mut self, plan: &Plan, number: u32) -> Result<Counts, NoMemory>
        requires strip { self.old.number < length (strips_of plan.now.grid) }
        requires rays { AreRays plan.now.grid self.old.number self.old.rays }
        requires number { number < length plan.now.moves }
        ensures edits { HasSameEdits self.old self.new }
        ensures same { HaveSameSets self.old.rays self.new.rays }
        ensures found { IfOk result (λ counts. (move : JobMove) → HasNumber plan.now number move
            → counts ≡ strip_found plan.now move self.old.number self.old.rays) }
    {
        let MoveChanges { changes, counts } = self.mark(plan, number)?;
        self.room = changes;
        Ok(counts)
    }
}

/// A strip on the way back over the moves that are left, from the last to the first. Its value is the strip and the place that is
/// reached. Only what is asked moves its sets, and nothing is kept for it while the edits are done.
#[derive(Drop)]
pub struct LookedBack {
    journal: Journal,
    /// How many entries are before the place.
    place: usize,
    /// How many of the moves that are left are before the place.
    left: u32,
}

impl Model for LookedBack {
    ghost use Rattle.strip_journal.specs.Journals.{job_of};
    ghost use Rattle.strip_journal.specs.LookedBack.{IsBackAt, LookedBackOf};

    ghost Value = { LookedBackOf };

    ghost view = { λ b. record { job = job_of b.journal; number = b.journal.number; done = b.journal.done; left = b.left } };

    ghost invariant = { λ b. IsBackAt b.journal b.place b.left };
}

impl LookedBack {
    /// The place after all moves that are left.
    pub(crate) fn of(journal: Journal) -> LookedBack
        requires { IsJournal (job_of journal) journal }
        ensures { result ≡ record { job = job_of journal; number = journal.number; done = journal.done; left = journal.at } }
    {
        let place = journal.entries.len();
        let left = journal.at;
        LookedBack {
            journal,
            place,
            left,
        }
    }

    /// The strip's number.
    pub fn number(&self) -> u32
        ensures number { result ≡ self.now.number }
        ensures strip { result < length (strips_of self.now.job.plan.grid) }
    {
        self.journal.number
    }

    /// How many of the moves that are left are before the place.
    pub fn left(&self) -> u32
        ensures left { result ≡ self.now.left }
        ensures within { result ≤ length (left_at self.now.job.plan.edits self.now.done) }
    {
        self.left
    }

    /// Goes back to the place after the first `left` of the moves that are left. It takes no memory.
    pub fn back(&mut self, left: u32)
        requires { left ≤ self.old.left }
        ensures { self.new ≡ record self.old { left = left } }
    {
        self.place = self.journal.go_back(self.place, self.left, left);
        self.left = left;
    }

    /// Ray n with its sets at the place.
    pub fn ray(&self, n: u32) -> &WordRay
        requires { n < length (strip_at self.now.job.plan.grid self.now.number) }
        ensures { IsRaySoFar self.now n result.now.sets }
    {
        self.journal.rays.ray(n)
    }

    /// What a move finds on the strip after the moves up to the place. It is a move of any plan over the same lattice with the same
    /// slabs and depth. When out of memory the place stays too.
    pub fn find(&mut self, plan: &Plan, number: u32) -> Result<Counts, NoMemory>
        requires plan { IsCutAlike self.old.job.plan plan.now }
        requires number { number < length plan.now.moves }
        ensures place { self.new ≡ self.old }
        ensures found { IfOk result (IsFoundSoFar self.old plan.now number) }
    {
        self.journal.find(plan, number)
    }
}
