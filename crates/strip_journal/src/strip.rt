ghost use Rattle.std.specs.Prelude.{◌≡◌, ℕ, ◌+◌, ◌-◌, ◌<◌, ◌≤◌, Some, IfOk, OnOk, OnErr, All, length, slice_get};
ghost use Rattle.ray_grid.specs.declared.ray.Ray.{Ray};
ghost use Rattle.ray_grid.specs.Lattice.{IsRay, points_of};
ghost use Rattle.ray_grid.specs.Strips.{strip_at, strips_of};
ghost use Rattle.ray_shapes.specs.Sets.{GivesSolid, HoldsPointsOf};
ghost use Rattle.edit_plan.specs.Edits.{left_at};
ghost use Rattle.job_counts.specs.Counts.{AreWithin};
ghost use Rattle.ray_grid.specs.Points.{point_in};
ghost use Rattle.job_model.specs.Points.{left_moves, state_after, strip_points, totals_over};
ghost use Rattle.strip_journal.specs.Remaining.{remains_at};
ghost use Rattle.strip_journal.specs.Strips.{AddsFound, IsFoundAt, most_before};

use crate::changes::Changes;
use crate::entries::Entries;
use crate::fresh::{fresh_rays, hold_grid};
use crate::history::EditHistory;
use crate::journal::Journal;
use crate::looked_back::LookedBack;
use job_counts::{Counts, PointState, Totals};
use ray_grid::Ray;
use ray_shapes::RayShape;
use std::alloc::Global;
use std::marker::Model;
use std::snapshot::Snapshot;
use std::sync::ledger::Ledger;
use strip_plan::{Plan, PlanDraft};
use vf_io::NoMemory;
use vf_spans::Spans;
use vf_steps::Steps;

/// A strip with its journal. Its value is the job that it is of, its number, and how many of the job's edits were done on it: all
/// that it returns is true of these.
#[derive(Drop)]
pub struct Strip {
    journal: Journal,
}

impl Model for Strip {
    ghost use Rattle.strip_journal.specs.Journals.{IsJournal, job_of};
    ghost use Rattle.strip_journal.specs.Strips.{StripOf};

    ghost Value = { StripOf };

    ghost view = { λ s. record { job = job_of s.journal; number = s.journal.number; done = s.journal.done } };

    ghost invariant = { λ s. IsJournal (job_of s.journal) s.journal };
}

impl Strip {
    /// The strip of a number before the first edit, with the points of the three bodies on its rays. Fails only when out of memory.
    pub fn fresh<
        A: Fn(&Ray) -> Result<Spans, NoMemory>,
        B: Fn(&Ray) -> Result<Spans, NoMemory>,
        C: Fn(&Ray) -> Result<Spans, NoMemory>,
    >(
        alloc: Global,
        plan: &Plan,
        number: u32,
        stock: &RayShape<A>,
        part: &RayShape<B>,
        fixture: &RayShape<C>,
    ) -> Result<Strip, NoMemory>
        requires number { number < length (strips_of plan.now.grid) }
        requires stock { GivesSolid A.Fn plan.now.grid stock.now }
        requires part { GivesSolid B.Fn plan.now.grid part.now }
        requires fixture { GivesSolid C.Fn plan.now.grid fixture.now }
        ensures { IfOk result (λ s. s ≡ record {
          job = record {
            plan = plan.now;
            stock = stock.now.solid.value;
            part = part.now.solid.value;
            fixture = fixture.now.solid.value;
          };
          number = number;
          done = 0;
        }) }
    {
        Strip::of_draft(alloc, plan.draft(), number, stock, part, fixture)
    }

    /// The same by what the plan is made of, so that strips can be made while the plan is computed.
    pub fn of_draft<
        A: Fn(&Ray) -> Result<Spans, NoMemory>,
        B: Fn(&Ray) -> Result<Spans, NoMemory>,
        C: Fn(&Ray) -> Result<Spans, NoMemory>,
    >(
        alloc: Global,
        draft: &PlanDraft,
        number: u32,
        stock: &RayShape<A>,
        part: &RayShape<B>,
        fixture: &RayShape<C>,
    ) -> Result<Strip, NoMemory>
        requires number { number < length (strips_of draft.now.grid) }
        requires stock { GivesSolid A.Fn draft.now.grid stock.now }
        requires part { GivesSolid B.Fn draft.now.grid part.now }
        requires fixture { GivesSolid C.Fn draft.now.grid fixture.now }
        ensures { IfOk result (λ s. s ≡ record {
          job = record {
            plan = draft.now;
            stock = stock.now.solid.value;
            part = part.now.solid.value;
            fixture = fixture.now.solid.value;
          };
          number = number;
          done = 0;
        }) }
    {
        // The plan is valid, its edits are few, and its grid is one.
        let _moves = draft.moves();
        let _edits = draft.edits();
        hold_grid(draft.grid());
        let (rays, of) = fresh_rays(alloc, draft.grid(), number, stock, part, fixture)?;
        let journal = Journal {
            number,
            done: 0,
            at: 0,
            line: EditHistory::new(alloc),
            alloc,
            plan: Snapshot::of(draft),
            stock: Snapshot::of(&stock.solid),
            part: Snapshot::of(&part.solid),
            fixture: Snapshot::of(&fixture.solid),
            of,
            rays,
            changes: Changes::new(alloc),
            entries: Entries::new(alloc),
            room: Vec::new(alloc),
        };
        Ok(Strip { journal })
    }

    /// The strip's number.
    pub fn number(&self) -> u32
        ensures number { result ≡ self.now.number }
        ensures strip { result < length (strips_of self.now.job.plan.grid) }
    {
        self.journal.number
    }

    /// How many edits were done on the strip.
    pub fn done(&self) -> u32
        ensures done { result ≡ self.now.done }
        ensures within { result ≤ length self.now.job.plan.edits }
    {
        self.journal.done
    }

    /// Does the edit that comes next. When out of memory nothing is changed.
    pub fn advance(&mut self, plan: &Plan) -> Result<(), NoMemory>
        requires plan { self.old.job.plan ≡ plan.now }
        requires next { self.old.done < length plan.now.edits }
        ensures ok { OnOk result (self.new ≡ record self.old { done = self.old.done + 1 }) }
        ensures unchanged { OnErr result (self.new ≡ self.old) }
    {
        self.journal.advance(plan)
    }

    /// Passes over the edits that come next and leave the strip alone, at most `most`, and returns how many. It takes no memory; it may
    /// pass over fewer than there are.
    pub fn skip_untouched(&mut self, plan: &Plan, most: u32) -> u32
        requires plan { self.old.job.plan ≡ plan.now }
        requires next { self.old.done + most ≤ length plan.now.edits }
        ensures most { result ≤ most }
        ensures passed { self.new ≡ record self.old { done = self.old.done + result } }
    {
        self.journal.skip_untouched(plan, most)
    }

    /// The strip before the first edit again. It takes no memory.
    pub fn start_over(self, plan: &Plan) -> Strip
        requires plan { self.job.plan ≡ plan.now }
        ensures { result ≡ record self { done = 0 } }
    {
        Strip {
            journal: self.journal.start_over(plan),
        }
    }

    /// The state of point l of ray n at a version, in at most one step for each edit since.
    pub fn mark_at<L: Ledger>(
        &self,
        version: u32,
        n: u32,
        l: u32,
        steps: &mut Steps<L>,
    ) -> PointState
        requires version { version ≤ self.now.done }
        requires ray { n < length (strip_at self.now.job.plan.grid self.now.number) }
        requires point { (ray : Ray) → slice_get (strip_at self.now.job.plan.grid self.now.number) n ≡ Some ray
            → l < points_of self.now.job.plan.grid ray.family }
        ensures state { (ray : Ray) → slice_get (strip_at self.now.job.plan.grid self.now.number) n ≡ Some ray
            → result ≡ state_after self.now.job (left_moves self.now.job.plan version) (point_in self.now.job.plan.grid ray l) }
        ensures cost { steps.new ≤ steps.old + (self.now.done - version) }
    {
        self.journal.state_at(version, n, l, steps)
    }

    /// How many stock points of the strip are removed at a version, at how many a move is possible, and how many there are.
    pub fn counts_at(&self, version: u32) -> Totals
        requires { version ≤ self.now.done }
        ensures { result ≡ totals_over self.now.job (strip_points self.now.job.plan.grid self.now.number)
            (left_moves self.now.job.plan version) }
    {
        self.journal.totals_at(version)
    }

    /// The stock points of ray n of which no move that is left is sure: a set of as many indices as the ray has points.
    pub fn remaining_on(&self, n: u32) -> Result<Spans, NoMemory>
        requires { n < length (strip_at self.now.job.plan.grid self.now.number) }
        ensures { (ray : Ray) → slice_get (strip_at self.now.job.plan.grid self.now.number) n ≡ Some ray
            → IfOk result (HoldsPointsOf self.now.job.plan.grid ray (remains_at self.now.job self.now.done)) }
    {
        self.journal.remaining_on(n)
    }

    /// The strip for looking back over the moves that are left, after the last of them. It takes no memory.
    pub fn look_back(self) -> LookedBack
        ensures { result ≡ record {
          job = self.job;
          number = self.number;
          done = self.done;
          left = length (left_at self.job.plan.edits self.done);
        } }
    {
        LookedBack::of(self.journal)
    }

    /// How many moves are left.
    pub fn left(&self) -> u32
        ensures { result ≡ length (left_at self.now.job.plan.edits self.now.done) }
    {
        self.journal.at
    }

    /// What the j-th of the moves that are left finds on the strip by those before it.
    pub fn found(&self, j: u32) -> Counts
        requires { j < length (left_at self.now.job.plan.edits self.now.done) }
        ensures { IsFoundAt self.now j result }
    {
        self.journal.found(j)
    }

    /// Adds what each of the moves that are left finds on the strip to the counts at its place.
    pub fn add_found(&self, counts: &mut [Counts])
        requires many { length counts.old ≡ length (left_at self.now.job.plan.edits self.now.done) }
        requires room { All (AreWithin most_before) counts.old }
        ensures { AddsFound self.now counts.old counts.new }
    {
        self.journal.add_found(counts)
    }
}
