ghost use Rattle.std.specs.Prelude.{◌≡◌, ◌+◌, ◌≤◌, length, take};
ghost use Rattle.std.specs.List.{range_with_len};
ghost use Rattle.edit_plan.specs.Limits.{most_edits};
ghost use Rattle.strip_journal.specs.Journals.{IsAt, IsJournal, job_of};
ghost use Rattle.strip_journal.specs.Steps.{IsStoodBy};

use crate::journal::Journal;
use strip_plan::Plan;

impl Journal {
    /// Adds `count` edits to those that are left, where all before them are left too. It takes no memory.
    fn push_edits(&mut self, count: u32)
        requires whole { self.old.at ≡ self.old.done }
        requires straight { take self.old.at self.old.line ≡ range_with_len 0 self.old.at }
        requires few { self.old.done + count ≤ most_edits }
        ensures { IsStoodBy self.old self.new count }
    {
        self.line.put_straight(self.at, count);
        self.at += count;
        self.done += count;
    }

    /// Passes over the edits that come next and leave the strip alone, at most `most`: adds them to those that are left, and returns
    /// how many. It takes no memory: once an edit applied no move, it passes over none.
    pub fn skip_untouched(&mut self, plan: &Plan, most: u32) -> u32
        requires journal { IsJournal (job_of self.old) self.old }
        requires plan { self.old.plan.value ≡ plan.now }
        requires next { self.old.done + most ≤ length plan.now.edits }
        ensures most { result ≤ most }
        ensures passed { IsAt self.old self.new (self.old.done + result) }
    {
        if self.at != self.done || !self.line.is_straight(self.at) {
            return 0;
        }
        let count = plan.untouched_edits(self.done, most, self.number);
        if count == 0 {
            return 0;
        }
        self.push_edits(count);
        count
    }
}
