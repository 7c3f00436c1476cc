ghost use Rattle.std.specs.Prelude.{◌≡◌, ℕ, ◌&&◌, not, List, Bool, false, IsTrue, IfOk, OnOk, OnErr, length};
ghost use Rattle.std.specs.List.{range_with_len};
ghost use Rattle.vf_spans.specs.Members.{has, count_of, count_below};
ghost use Rattle.dexel_rays.specs.Findings.{findings, met, none_met, is_settled, is_outside};
ghost use Rattle.dexel_rays.specs.Sets.{Sets, HaveBound, seen_at};
ghost use Rattle.dexel_rays.specs.Steps.{IsDelta, IsUnited, IsWithout, StaysAt};

use crate::delta::Delta;
use job_counts::Counts;
use std::alloc::Global;
use std::marker::Model;
use vf_io::NoMemory;
use vf_spans::Spans;

/// The sets of one ray: the indices that are stock, part and fixture, those of which some move was
/// sure, and those at which some move was possible.
#[derive(Drop)]
pub struct Dexel {
    stock: Spans,
    part: Spans,
    fixture: Spans,
    sure: Spans,
    possible: Spans,
}

impl Model for Dexel {
    ghost use Rattle.std.specs.Prelude.{length};
    ghost use Rattle.dexel_rays.specs.Sets.{Sets, HaveBound};

    ghost Value = { Sets };

    ghost view = { λ d. record { stock = d.stock; part = d.part; fixture = d.fixture; sure = d.sure; possible = d.possible } };

    ghost invariant = { λ d. HaveBound (length d.stock)
        record { stock = d.stock; part = d.part; fixture = d.fixture; sure = d.sure; possible = d.possible } };
}

impl Dexel {
    /// A ray that no move has marked. It takes no memory.
    pub fn new(alloc: Global, stock: Spans, part: Spans, fixture: Spans) -> Dexel
        requires part { length part ≡ length stock }
        requires fixture { length fixture ≡ length stock }
        ensures stock { result.stock ≡ stock }
        ensures part { result.part ≡ part }
        ensures fixture { result.fixture ≡ fixture }
        ensures sure { (i : ℕ) → has result.sure i ≡ false }
        ensures possible { (i : ℕ) → has result.possible i ≡ false }
        ensures bound { HaveBound (length stock) result }
    {
        let bound = stock.bound();
        Dexel {
            stock,
            part,
            fixture,
            sure: Spans::new(alloc, bound),
            possible: Spans::new(alloc, bound),
        }
    }

    /// How many points the ray has; the five sets have this bound.
    pub fn bound(&self) -> u32
        ensures points { result ≡ length self.now.stock }
        ensures all { HaveBound result self.now }
    {
        self.stock.bound()
    }

    /// Whether point l of the ray, counted from 0, is stock, removed or not.
    pub fn has_stock(&self, l: u32) -> bool
        ensures { result ≡ has self.now.stock l }
    {
        self.stock.has(l)
    }

    /// Whether some move was sure of point l of the ray, counted from 0.
    pub fn has_sure(&self, l: u32) -> bool
        ensures { result ≡ has self.now.sure l }
    {
        self.sure.has(l)
    }

    /// Whether some move was possible at point l of the ray, counted from 0.
    pub fn has_possible(&self, l: u32) -> bool
        ensures { result ≡ has self.now.possible l }
    {
        self.possible.has(l)
    }

    /// How many points of the ray are stock, removed or not.
    pub fn stock_count(&self) -> u64
        ensures { result ≡ count_of self.now.stock }
    {
        u64::from(self.stock.count())
    }

    /// A ray with the same five sets.
    pub fn copy(&self) -> Result<Dexel, NoMemory>
        ensures { IfOk result (λ r. r ≡ self.now) }
    {
        Ok(Dexel {
            stock: self.stock.copy()?,
            part: self.part.copy()?,
            fixture: self.fixture.copy()?,
            sure: self.sure.copy()?,
            possible: self.possible.copy()?,
        })
    }

    /// Adds what a move marks, and gives what was new in that and what the move finds on the ray.
    ///
    /// The sets are united; each result takes its own room, and the counts take none.
    pub fn add(&mut self, sure: &Spans, possible: &Spans, rapid: bool) -> Result<Delta, NoMemory>
        requires sure { length sure.now ≡ length self.old.stock }
        requires possible { length possible.now ≡ length self.old.stock }
        ensures united { OnOk result (IsUnited self.old sure.now possible.now self.new) }
        ensures delta { IfOk result (IsDelta self.old sure.now possible.now rapid) }
        // Whatever is marked there, a point that is settled changes no set and no count, and one
        // outside the stock, the part and the fixture changes no count.
        ensures settled { (i : ℕ) → IsTrue (is_settled (seen_at self.old sure.now possible.now rapid i))
            → StaysAt self.old self.new i × (met (seen_at self.old sure.now possible.now rapid i) ≡ none_met) }
        ensures outside { (i : ℕ) → IsTrue (is_outside (seen_at self.old sure.now possible.now rapid i))
            → met (seen_at self.old sure.now possible.now rapid i) ≡ none_met }
        ensures unchanged { OnErr result (self.new ≡ self.old) }
    {
        let delta = self.delta_of(sure, possible, rapid)?;
        let sure = self.sure.union(sure)?;
        let possible = self.possible.union(possible)?;
        self.sure = sure;
        self.possible = possible;
        Ok(delta)
    }

    /// Takes the indices of a delta out again.
    pub fn take_back(&mut self, delta: &Delta) -> Result<(), NoMemory>
        requires sure { length delta.now.sure ≡ length self.old.stock }
        requires possible { length delta.now.possible ≡ length self.old.stock }
        ensures without { OnOk result (IsWithout self.old delta.now self.new) }
        // After `add` the delta that it gave leads back to the five sets from before.
        ensures back { OnOk result ((before : Sets) (sure possible : List Bool) (rapid : Bool)
            → IsUnited before sure possible self.old → IsDelta before sure possible rapid delta.now → self.new ≡ before) }
        ensures unchanged { OnErr result (self.new ≡ self.old) }
    {
        let sure = self.sure.minus(&delta.sure)?;
        let possible = self.possible.minus(&delta.possible)?;
        self.sure = sure;
        self.possible = possible;
        Ok(())
    }

    /// What is new in the marks of a move, and what the move finds on the ray.
    fn delta_of(&self, sure: &Spans, possible: &Spans, rapid: bool) -> Result<Delta, NoMemory>
        requires sure { length sure.now ≡ length self.now.stock }
        requires possible { length possible.now ≡ length self.now.stock }
        ensures { IfOk result (IsDelta self.now sure.now possible.now rapid) }
    {
        Ok(Delta {
            sure: sure.minus(&self.sure)?,
            possible: possible.minus(&self.possible)?,
            counts: self.counts_of(sure, possible, rapid),
        })
    }

    /// What a move with these marks finds on the ray.
    fn counts_of(&self, sure: &Spans, possible: &Spans, rapid: bool) -> Counts
        requires sure { length sure.now ≡ length self.now.stock }
        requires possible { length possible.now ≡ length self.now.stock }
        ensures { result ≡ findings (seen_at self.now sure.now possible.now rapid) (range_with_len 0 (length self.now.stock)) }
    {
        let stock = &self.stock;
        Counts {
            removed: u64::from(stock.count_meet_minus(sure, &self.sure)),
            possible: u64::from(stock.count_meet_minus(possible, &self.possible)),
            part_sure: u64::from(self.part.count_meet(sure)),
            part_possible: u64::from(self.part.count_meet(possible)),
            fix_sure: u64::from(self.fixture.count_meet(sure)),
            fix_possible: u64::from(self.fixture.count_meet(possible)),
            rapid_sure: rapid_count(rapid, stock, sure, &self.possible),
            rapid_possible: rapid_count(rapid, stock, possible, &self.sure),
        }
    }
}

/// How many stock points a rapid move marks that are not in the set from before; for a cut, none.
fn rapid_count(rapid: bool, stock: &Spans, marked: &Spans, before: &Spans) -> u64
    requires marked { length marked.now ≡ length stock.now }
    requires before { length before.now ≡ length stock.now }
    ensures { result ≡ count_below (length stock.now)
        (λ i. rapid && (has stock.now i && (has marked.now i && not (has before.now i)))) }
{
    if rapid {
        u64::from(stock.count_meet_minus(marked, before))
    } else {
        0
    }
}
