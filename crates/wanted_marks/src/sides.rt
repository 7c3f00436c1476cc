ghost use Rattle.std.specs.Prelude.{◌≡◌, ℕ, ◌<◌, true, false};
ghost use Rattle.vf_spans.specs.Words.{has_bit};

use crate::word::bits_without;
use vf_spans::bits::{bits_from, highest_bit, lowest_bit};

/// The bits of a word in two parts, those below a place and the others.
#[derive(Clone, Copy)]
pub struct Sides {
    pub below: u64,
    pub above: u64,
}

/// Where a word is parted: at some bits that are known, or else in the middle of those that are left. Any place is right.
#[inline]
fn place_of(left: u64, known: u64) -> u32
    ensures { result < 64 }
{
    if known != 0 {
        return lowest_bit(known);
    }
    if left == 0 {
        return 0;
    }
    (lowest_bit(left) + highest_bit(left)) / 2
}

impl Sides {
    /// The bits that are left below and above some that are known.
    #[inline]
    pub fn beside(left: u64, known: u64) -> Sides
        ensures below { (k : ℕ) → k < 64 → has_bit result.below k ≡ true → has_bit left k ≡ true }
        ensures above { (k : ℕ) → k < 64 → has_bit result.above k ≡ true → has_bit left k ≡ true }
        ensures all { (k : ℕ) → k < 64 → has_bit left k ≡ true → has_bit result.below k ≡ false → has_bit result.above k ≡ true }
    {
        let above = left & bits_from(place_of(left, known));
        Sides {
            below: bits_without(left, above),
            above,
        }
    }
}

/// Whether enough bits are set that it pays to test for all their points at once whether they are apart. Any limit is right.
#[inline]
pub fn are_many(bits: u64) -> bool {
    16 <= bits.count_ones()
}

/// Whether so few bits are set that a sample for all of them isn't worth its price. Any limit is right: it only matters for speed.
#[inline]
pub fn is_few(bits: u64) -> bool {
    bits.count_ones() < 4
}
