ghost use Rattle.std.specs.Prelude.{◌≡◌, ◌+◌, ◌<◌, ◌≤◌, Some, IfErr, IfOk, OnOk, length, max, min, slice_get};
ghost use Rattle.ray_grid.specs.declared.ray.Ray.{Ray};
ghost use Rattle.ray_grid.specs.Lattice.{points_of};
ghost use Rattle.ray_grid.specs.Strips.{strip_at};
ghost use Rattle.edit_plan.specs.Limits.{most_edits};
ghost use Rattle.ray_grid.specs.Points.{point_in};
ghost use Rattle.job_model.specs.Points.{left_moves, state_after, strip_points, totals_over};
ghost use Rattle.turn_core.specs.Turns.{IsRaised, IsStopped};

use crate::asking::state_at;
use crate::turning::{EDITS, raise};
use job_counts::{PointState, Totals};
use std::marker::Model;
use std::snapshot::Snapshot;
use strip_journal::Strip;
use strip_plan::Plan;
use vf_io::NoMemory;

/// How many edits lie between a strip's stops: that many are done in one go.
const STRETCH: u32 = 128;

/// The first of a strip's stops that isn't before a version. Strips whose numbers follow one another stop at different versions: so
/// of those that a move enters only a few have long turns at a time, and the workers meanwhile pass over the others.
fn stop_from(number: u32, version: u32) -> u32
    requires { version ≤ most_edits }
    ensures { version ≤ result }
{
    let first = number % (STRETCH / EDITS) * EDITS;
    version + (first + STRETCH - version % STRETCH) % STRETCH
}

/// A strip that works ahead. It is seen at a version, and its edits are done up to that one or past it: so its words come into a
/// processor's cache once for many turns. Whoever holds it knows the version, which isn't written here: a turn that finds its edits done
/// changes no byte, so the lines of the cache that it reads stay with all processors.
#[derive(Drop)]
pub struct AheadStrip {
    /// The version at which it is seen: only for contracts, without a byte.
    seen: Snapshot<u32>,
    strip: Strip,
}

impl Model for AheadStrip {
    ghost use Rattle.std.specs.Prelude.{◌≤◌};
    ghost use Rattle.strip_journal.specs.Strips.{StripOf};

    ghost Value = { StripOf };

    ghost view = { λ s. record s.strip { done = s.seen.value } };

    ghost invariant = { λ s. s.seen.value ≤ s.strip.done };
}

impl AheadStrip {
    /// A strip that is seen as it is.
    pub fn of(strip: Strip) -> AheadStrip
        ensures { result ≡ strip }
    {
        AheadStrip {
            seen: Snapshot::of(&strip.done()),
            strip,
        }
    }

    /// Moves on to be seen at a version. Where the edits up to it aren't done yet, they are done up to a stop. Running out of memory for an
    /// edit past the version is no failure: whoever needs the edit tries again. Where an edit up to the version found none, the strip is
    /// then seen at the version that is returned.
    fn move_on(&mut self, plan: &Plan, version: u32, stop: u32) -> Result<(), u32>
        requires plan { self.old.job.plan ≡ plan.now }
        requires further { self.old.done ≤ version }
        requires order { version ≤ stop }
        requires within { stop ≤ length plan.now.edits }
        ensures ok { OnOk result (IsRaised self.old self.new version) }
        ensures err { IfErr result (λ at. (at ≡ self.new.done) × IsStopped self.old self.new version) }
    {
        if self.strip.done() < version {
            // How far the strip came decides, and not whether it came to the stop.
            let _tried = raise(&mut self.strip, plan, stop);
            let at = self.strip.done();
            if at < version {
                self.seen = Snapshot::of(&at);
                return Err(at);
            }
        }
        self.seen = Snapshot::of(&version);
        Ok(())
    }

    /// Takes the strip, that is seen at `from`, to a version, unless it is there or past it. When out of memory it returns the version
    /// in between at which the strip is seen.
    pub fn raise(&mut self, plan: &Plan, from: u32, version: u32) -> Result<(), u32>
        requires plan { self.old.job.plan ≡ plan.now }
        requires from { from ≡ self.old.done }
        requires version { version ≤ length plan.now.edits }
        ensures ok { OnOk result (IsRaised self.old self.new (max self.old.done version)) }
        ensures err { IfErr result (λ at. (at ≡ self.new.done) × IsStopped self.old self.new version) }
    {
        if version <= from {
            return Ok(());
        }
        self.move_on(plan, version, version)
    }

    /// Does the next edits on the strip, that is seen at `from`: at most eight, or none where they are done. Both answers say from which
    /// version to which; when out of memory it stops short of where the turn would end.
    pub fn turn(&mut self, plan: &Plan, from: u32) -> Result<(u32, u32), (u32, u32)>
        requires plan { self.old.job.plan ≡ plan.now }
        requires from { from ≡ self.old.done }
        ensures ok { IfOk result (λ turn. (turn.0 ≡ self.old.done) × (turn.1 ≡ self.new.done)
            × IsRaised self.old self.new (min (self.old.done + 8) (length plan.now.edits))) }
        ensures err { IfErr result (λ turn. (turn.0 ≡ self.old.done) × (turn.1 ≡ self.new.done)
            × IsStopped self.old self.new (min (self.old.done + 8) (length plan.now.edits))) }
    {
        // It is no more than how many edits were done.
        let _done = self.strip.done();
        let edits = plan.edits();
        let to = (from + EDITS).min(edits);
        let stop = stop_from(self.strip.number(), to).min(edits);
        match self.move_on(plan, to, stop) {
            Ok(()) => Ok((from, to)),
            Err(at) => Err((from, at)),
        }
    }

    /// The state of point l of ray n at a version.
    pub fn state_at(&self, version: u32, n: u32, l: u32) -> PointState
        requires version { version ≤ self.now.done }
        requires ray { n < length (strip_at self.now.job.plan.grid self.now.number) }
        requires point { (ray : Ray) → slice_get (strip_at self.now.job.plan.grid self.now.number) n ≡ Some ray
            → l < points_of self.now.job.plan.grid ray.family }
        ensures { (ray : Ray) → slice_get (strip_at self.now.job.plan.grid self.now.number) n ≡ Some ray
            → result ≡ state_after self.now.job (left_moves self.now.job.plan version) (point_in self.now.job.plan.grid ray l) }
    {
        state_at(&self.strip, version, n, l)
    }

    /// How many stock points of the strip are removed at a version, at how many a move is possible, and how many there are.
    pub fn counts_at(&self, version: u32) -> Totals
        requires { version ≤ self.now.done }
        ensures { result ≡ totals_over self.now.job (strip_points self.now.job.plan.grid self.now.number)
            (left_moves self.now.job.plan version) }
    {
        self.strip.counts_at(version)
    }

    /// The strip as it is seen, at version `done`. Where it worked past that, it starts over and is raised again.
    pub fn into_strip(self, plan: &Plan, done: u32) -> Result<Strip, NoMemory>
        requires plan { self.job.plan ≡ plan.now }
        requires done { done ≡ self.done }
        ensures { IfOk result (λ strip. strip ≡ self) }
    {
        let AheadStrip { seen: _, strip } = self;
        if done == strip.done() {
            return Ok(strip);
        }
        let mut again = strip.start_over(plan);
        raise(&mut again, plan, done)?;
        Ok(again)
    }
}
