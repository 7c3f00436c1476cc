//! How many bits of words of 64 points are set.
ghost use Rattle.std.specs.Prelude.{◌≡◌, ◌&&◌, not};
ghost use Rattle.vf_spans.specs.Members.{count_below};
ghost use Rattle.vf_spans.specs.Words.{has_bit};

/// How many bits are set.
#[inline]
pub fn ones(word: u64) -> u64
    ensures { result ≡ count_below 64 (has_bit word) }
{
    u64::from(word.count_ones())
}

/// How many bits both words have.
#[inline]
pub fn ones_meet(a: u64, b: u64) -> u64
    ensures { result ≡ count_below 64 (λ k. has_bit a k && has_bit b k) }
{
    ones(a & b)
}

/// How many bits the first two words have and the third has not.
#[inline]
pub fn ones_meet_minus(a: u64, b: u64, c: u64) -> u64
    ensures { result ≡ count_below 64 (λ k. has_bit a k && (has_bit b k && not (has_bit c k))) }
{
    ones(a & b & !c)
}

/// The same of a rapid move; of a cut, none.
#[inline]
pub fn rapid_ones(rapid: bool, a: u64, b: u64, c: u64) -> u64
    ensures { result ≡ count_below 64 (λ k. rapid && (has_bit a k && (has_bit b k && not (has_bit c k)))) }
{
    if rapid { ones_meet_minus(a, b, c) } else { 0 }
}
