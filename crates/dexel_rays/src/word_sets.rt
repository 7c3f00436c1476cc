ghost use Rattle.std.specs.Prelude.{◌≡◌, ℕ, ◌<◌, ◌^◌, false};
ghost use Rattle.std.specs.List.{range_with_len};
ghost use Rattle.vf_spans.specs.Words.{has_bit};
ghost use Rattle.dexel_rays.specs.declared.word_sets.WordSets.{WordSets};
ghost use Rattle.dexel_rays.specs.Asked.{is_sure_only, is_wanted};
ghost use Rattle.dexel_rays.specs.Findings.{findings};
ghost use Rattle.dexel_rays.specs.WordSets.{seen_bit, IsWordDelta, IsWordWith, IsWordWithout, word_totals};

use crate::ones::{ones, ones_meet, ones_meet_minus, rapid_ones};
use job_counts::{Counts, Totals};

/// What is known of 64 points of a ray: bit b of each word is the point at the index first + b.
#[derive(Clone, Copy)]
pub struct WordSets {
    pub stock: u64,
    pub part: u64,
    pub fixture: u64,
    /// The stock points of which some move was sure.
    pub sure: u64,
    /// The stock points at which some move was possible.
    pub possible: u64,
}

/// What a move adds to the sets of 64 points: the stock points of which it is the first to be sure, and those
/// at which it is the first to be possible.
#[derive(Clone, Copy)]
pub struct WordDelta {
    pub sure: u64,
    pub possible: u64,
}

impl WordSets {
    /// The points that are candidates for a move: stock that isn't yet sure, part, and fixture.
    #[inline]
    pub fn wanted(&self) -> u64
        // What the move marks, and whether it is rapid, doesn't matter.
        ensures { (b : ℕ) → b < 64 → has_bit result b ≡ is_wanted (seen_bit self.now 0 0 false b) }
    {
        self.part | self.fixture | (self.stock & !self.sure)
    }

    /// The points at which only whether a move is sure has to be tested: those that are possible
    /// already, of a move that isn't rapid, except part and fixture.
    #[inline]
    pub fn sure_only(&self, rapid: bool) -> u64
        // What the move marks doesn't matter.
        ensures { (b : ℕ) → b < 64 → has_bit result b ≡ is_sure_only (seen_bit self.now 0 0 rapid b) }
    {
        if rapid {
            0
        } else {
            !(self.part | self.fixture) & self.possible
        }
    }

    /// What a move that marks these bits adds to the sets, and what it finds here.
    #[inline]
    pub fn add(&self, sure: u64, possible: u64, rapid: bool) -> (WordDelta, Counts)
        ensures delta { IsWordDelta self.now sure possible result.0 }
        ensures counts { result.1 ≡ findings (seen_bit self.now sure possible rapid) (range_with_len 0 64) }
    {
        (
            self.delta_of(sure, possible),
            self.counts_of(sure, possible, rapid),
        )
    }

    /// The sets with what a move added.
    #[inline]
    pub fn with(&self, delta: &WordDelta) -> WordSets
        ensures { IsWordWith self.now delta.now result }
    {
        WordSets {
            stock: self.stock,
            part: self.part,
            fixture: self.fixture,
            sure: self.sure | delta.sure,
            possible: self.possible | delta.possible,
        }
    }

    /// The sets without what a move added.
    #[inline]
    pub fn without(&self, delta: &WordDelta) -> WordSets
        ensures without { IsWordWithout self.now delta.now result }
        // After `with` the delta of a move leads back to the sets from before.
        ensures back { (before : WordSets) (sure possible : ℕ) → before.sure < 2 ^ 64 → before.possible < 2 ^ 64
            → IsWordDelta before sure possible delta.now → IsWordWith before delta.now self.now → result ≡ before }
    {
        WordSets {
            stock: self.stock,
            part: self.part,
            fixture: self.fixture,
            sure: self.sure & !delta.sure,
            possible: self.possible & !delta.possible,
        }
    }

    /// How many of the points are removed, how many possible, and how many stock.
    #[inline]
    pub fn totals(&self) -> Totals
        ensures { result ≡ word_totals self.now }
    {
        Totals {
            removed: ones_meet(self.stock, self.sure),
            possible: ones_meet(self.stock, self.possible),
            of: ones(self.stock),
        }
    }

    /// What is new in the marks of a move.
    #[inline]
    fn delta_of(&self, sure: u64, possible: u64) -> WordDelta
        ensures { IsWordDelta self.now sure possible result }
    {
        WordDelta {
            sure: self.stock & sure & !self.sure,
            possible: self.stock & possible & !self.possible,
        }
    }

    /// What a move with these marks finds here.
    #[inline]
    fn counts_of(&self, sure: u64, possible: u64, rapid: bool) -> Counts
        ensures { result ≡ findings (seen_bit self.now sure possible rapid) (range_with_len 0 64) }
    {
        Counts {
            removed: ones_meet_minus(self.stock, sure, self.sure),
            possible: ones_meet_minus(self.stock, possible, self.possible),
            part_sure: ones_meet(self.part, sure),
            part_possible: ones_meet(self.part, possible),
            fix_sure: ones_meet(self.fixture, sure),
            fix_possible: ones_meet(self.fixture, possible),
            rapid_sure: rapid_ones(rapid, self.stock, sure, self.possible),
            rapid_possible: rapid_ones(rapid, self.stock, possible, self.sure),
        }
    }
}
