ghost use Rattle.std.specs.Prelude.{◌<◌, IfOk, length};
ghost use Rattle.ray_shapes.specs.Sets.{HoldsPointsOf};
ghost use Rattle.strip_marks.specs.Marks.{ray_of};
ghost use Rattle.strip_journal.specs.Journals.{IsJournal, job_of};
ghost use Rattle.strip_journal.specs.Remaining.{HasRemaining, remains_at};

use crate::journal::Journal;
use ray_words::WordRay;
use std::alloc::Global;
use vf_io::NoMemory;
use vf_spans::{Spans, Words};

/// The stock points of a ray of which no move was sure.
fn remaining_of(alloc: Global, ray: &WordRay) -> Result<Spans, NoMemory>
    ensures { IfOk result (HasRemaining ray.now.sets) }
{
    let mut left = Words::new(alloc, ray.bound())?;
    for n in 0..left.words() {
        let word = ray.word(n);
        left.or_word(n, word.stock & !word.sure);
    }
    left.to_spans()
}

impl Journal {
    /// The stock points of ray n of which no move that is left is sure.
    pub fn remaining_on(&self, n: u32) -> Result<Spans, NoMemory>
        requires journal { IsJournal (job_of self.now) self.now }
        requires ray { n < length self.now.rays }
        ensures { IfOk result (HoldsPointsOf self.now.plan.value.grid (ray_of self.now.plan.value.grid self.now.number n)
            (remains_at (job_of self.now) self.now.done)) }
    {
        remaining_of(self.alloc, self.rays.ray(n))
    }
}
