ghost use Rattle.std.specs.Prelude.{◌≡◌, ℕ, ◌+◌, ◌*◌, ◌^◌, ◌<◌, ◌≤◌, ◌⊎◌, true};
ghost use Rattle.vf_spans.specs.Members.{in_range};
ghost use Rattle.vf_spans.specs.Words.{has_bit, in_word};

use std::marker::Model;
use vf_spans::bits::{bits_from, highest_bit, lowest_bit};

/// The lowest bit of the run of set bits of a word that ends below that one.
#[inline]
fn start_of_run(word: u64, b: u32) -> u32
    requires { b < 64 }
    ensures within { result ≤ b }
    ensures set { (k : ℕ) → result ≤ k → k < b → has_bit word k ≡ true }
{
    let below = !word & !bits_from(b);
    if below == 0 {
        return 0;
    }
    highest_bit(below) + 1
}

/// The first bit after the run of set bits of a word that begins with that one.
#[inline]
fn end_of_run(word: u64, b: u32) -> u32
    requires some { b < 64 }
    requires first { has_bit word b ≡ true }
    ensures from { b < result }
    ensures to { result ≤ 64 }
    ensures set { (k : ℕ) → b ≤ k → k < result → has_bit word k ≡ true }
{
    let above = !word & bits_from(b);
    if above == 0 {
        return 64;
    }
    lowest_bit(above)
}

/// A range of indices of a ray, as its first one and the one after its last.
#[derive(Clone, Copy)]
pub struct Settled {
    from: u32,
    to: u32,
}

impl Model for Settled {
    ghost Value = { ℕ × ℕ };

    ghost view = { λ s. (s.from, s.to) };

    ghost invariant = { λ s. s.from ≤ s.to };

    ghost inverse = { λ s. record { from = s.0; to = s.1 } };
}

impl Settled {
    /// The range from the one index on and below the other.
    pub fn of(range: (u32, u32)) -> Settled
        requires { range.0 ≤ range.1 }
        ensures { result ≡ range }
    {
        let (from, to) = range;
        Settled { from, to }
    }

    /// The range once points of word n have become sure, by those of the word that aren't wanted then. Of these the run about the lowest
    /// one that has become sure is put to the range.
    #[inline]
    pub fn grown(self, n: u32, sure: u64, unwanted: u64) -> Settled
        ensures { (l : ℕ) → in_range l result ≡ true → (in_range l self ≡ true) ⊎ (in_word n unwanted l ≡ true) }
    {
        let settled = sure & unwanted;
        if settled == 0 {
            return self;
        }
        let b = lowest_bit(settled);
        let first = n.saturating_mul(64);
        let from = first.saturating_add(start_of_run(unwanted, b));
        let to = first.saturating_add(end_of_run(unwanted, b));
        self.with((from, to))
    }

    /// What is left of a window where the indices of the range are taken off at either end.
    #[inline]
    pub fn cut(self, window: (u32, u32)) -> (u32, u32)
        requires { window.0 ≤ window.1 }
        ensures from { window.0 ≤ result.0 }
        ensures order { result.0 ≤ result.1 }
        ensures to { result.1 ≤ window.1 }
        ensures all { (l : ℕ) → in_range l window ≡ true → (in_range l result ≡ true) ⊎ (in_range l self ≡ true) }
    {
        let (lo, hi) = window;
        // Of most rays that a move's window has, all of it is settled.
        if self.from <= lo && hi <= self.to {
            (hi, hi)
        } else if self.from <= lo {
            (lo.max(self.to), hi)
        } else if hi <= self.to {
            (lo, hi.min(self.from))
        } else {
            window
        }
    }

    /// The range and a run together where the two touch or overlap, else the longer one.
    #[inline]
    fn with(self, run: (u32, u32)) -> Settled
        requires { run.0 ≤ run.1 }
        ensures { (l : ℕ) → in_range l result ≡ true → (in_range l self ≡ true) ⊎ (in_range l run ≡ true) }
    {
        let (from, to) = run;
        if from <= self.to && self.from <= to {
            Settled {
                from: self.from.min(from),
                to: self.to.max(to),
            }
        } else if self.to - self.from < to - from {
            Settled { from, to }
        } else {
            self
        }
    }
}
