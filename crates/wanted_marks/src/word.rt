ghost use Rattle.std.specs.Prelude.{◌≡◌, ℕ, ◌<◌, ◌≤◌, ◌&&◌, ◌||◌, not, nat_eq, nat_le, true, false, if◌then◌else◌};
ghost use Rattle.vf_spans.specs.Words.{has_bit};
ghost use Rattle.wanted_marks.specs.Told.{asked_at, tells_possible, tells_sure, with_told};

use axis_cells::Mark;
use vf_spans::bits::{bits_below, bits_from, has_bit, with_bit};
use width_bisect::Asked;

/// The word with one bit not set.
#[inline]
pub fn without_bit(word: u64, b: u32) -> u64
    requires { b < 64 }
    ensures bits { (k : ℕ) → k < 64 → has_bit result k ≡ (has_bit word k && not (nat_eq k b)) }
    ensures less { has_bit word b ≡ true → result < word }
{
    word & !(1 << b)
}

/// The bits of a word that another doesn't have.
#[inline]
pub fn bits_without(word: u64, others: u64) -> u64
    ensures { (k : ℕ) → k < 64 → has_bit result k ≡ (has_bit word k && not (has_bit others k)) }
{
    word & !others
}

/// The bits of a word from one to another.
#[inline]
pub fn bits_between(word: u64, from: u32, to: u32) -> u64
    requires order { from ≤ to }
    requires within { to < 64 }
    ensures { (k : ℕ) → k < 64 → has_bit result k ≡ ((has_bit word k && nat_le from k) && nat_le k to) }
{
    bits_below(word & bits_from(from), to + 1)
}

/// The bits of the second word in these places, and elsewhere those of the first.
#[inline]
pub fn chosen_bits(elsewhere: u64, there: u64, places: u64) -> u64
    ensures { (k : ℕ) → k < 64 → has_bit result k ≡ (if has_bit places k then has_bit there k else has_bit elsewhere k) }
{
    elsewhere & !places | there & places
}

/// The question about the point at bit b: of those with a bit in `sure_only` it is only whether they are sure.
#[inline]
pub fn asked_at(sure_only: u64, b: u32) -> Asked
    requires { b < 64 }
    ensures { result ≡ asked_at (has_bit sure_only b) }
{
    if has_bit(sure_only, b) {
        Asked::Sure
    } else {
        Asked::Whole
    }
}

/// The marks of a word of 64 points: a bit for each that is sure to be cut, and for each that may be met.
#[derive(Clone, Copy)]
pub struct WordMarks {
    pub sure: u64,
    pub possible: u64,
}

impl WordMarks {
    /// The same with these points marked as sure, and so as possible.
    #[inline]
    pub(crate) fn with_sure(self, bits: u64) -> WordMarks
        ensures sure { (k : ℕ) → k < 64 → has_bit result.sure k ≡ (has_bit self.sure k || has_bit bits k) }
        ensures possible { (k : ℕ) → k < 64 → has_bit result.possible k ≡ (has_bit self.possible k || has_bit bits k) }
    {
        WordMarks {
            sure: self.sure | bits,
            possible: self.possible | bits,
        }
    }

    /// The same with the mark of the point at bit `b` taken in.
    #[inline]
    pub(crate) fn with_mark(self, b: u32, mark: Mark) -> WordMarks
        requires { b < 64 }
        ensures sure { (k : ℕ) → k < 64 → has_bit result.sure k ≡ with_told self.sure b (tells_sure mark) k }
        ensures possible { (k : ℕ) → k < 64 → has_bit result.possible k ≡ with_told self.possible b (tells_possible mark) k }
    {
        match mark {
            Mark::Removed => WordMarks {
                sure: with_bit(self.sure, b),
                possible: with_bit(self.possible, b),
            },
            Mark::Possible => WordMarks {
                sure: self.sure,
                possible: with_bit(self.possible, b),
            },
            Mark::Clear => self,
        }
    }
}
