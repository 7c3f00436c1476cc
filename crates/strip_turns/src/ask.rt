ghost use Rattle.std.specs.Prelude.{length};
ghost use Rattle.edit_plan.specs.Queries.{IsQuery};
ghost use Rattle.strip_turns.specs.Passes.{card, IsPass};
ghost use Rattle.strip_turns.specs.Asks.{Asks, Finishes};

use crate::board::{Board, Pass};
use crate::moves::look;
use crate::raising::all_raised;
use crate::reading::{counted, probed};
use edit_plan::{Ask, Query};
use job_counts::Answer;
use std::sync::Wait;
use vf_io::NoMemory;

impl Board {
    /// The answer at the query's own version. It waits for each strip that it needs, and raises it.
    pub fn ask<R: Wait>(&self, rt: &R, pass: &mut Pass, query: &Query) -> Result<Answer, NoMemory>
        requires pass { IsPass self.now pass.old }
        requires query { IsQuery self.now.plan.grid (length self.now.plan.edits) query.now }
        ensures pass { IsPass self.now pass.new }
        ensures told { Asks (card self.now) query.now result pass.old.seat.me.0 pass.new.seat.me.0 }
    {
        match &query.ask {
            Ask::Probe { ray, l } => {
                let state = probed(rt, self, &mut pass.seat, ray, *l, query.version)?;
                Ok(Answer::Probe(state))
            }
            Ask::Count => {
                let totals = counted(rt, self, &mut pass.seat, query.version)?;
                Ok(Answer::Count(totals))
            }
        }
    }

    /// Raises each strip to the last version. It waits for each.
    pub fn finish<R: Wait>(&self, rt: &R, pass: &mut Pass) -> Result<(), NoMemory>
        requires pass { IsPass self.now pass.old }
        ensures pass { IsPass self.now pass.new }
        ensures told { Finishes (card self.now) result pass.old.seat.me.0 pass.new.seat.me.0 }
    {
        let last = self.plan.edits();
        all_raised(rt, self, &mut pass.seat, last)?;
        look(self, &mut pass.seat);
        Ok(())
    }
}
