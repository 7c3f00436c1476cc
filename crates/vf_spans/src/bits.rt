//! Bits of one word of 64 flags; bit 0 is the lowest.
ghost use Rattle.std.specs.Prelude.{◌≡◌, ℕ, ◌<◌, ◌≤◌, ◌+◌, ◌*◌, ◌/◌, ◌||◌, ◌&&◌, true, false, nat_eq, nat_le, nat_lt};
ghost use Rattle.vf_spans.specs.Words.{has_bit};

/// Whether the bit is set.
pub fn has_bit(word: u64, b: u32) -> bool
    requires { b < 64 }
    ensures { result ≡ has_bit word b }
{
    word >> b & 1 == 1
}

/// The word with one bit more.
pub fn with_bit(word: u64, b: u32) -> u64
    requires { b < 64 }
    ensures { (k : ℕ) → k < 64 → has_bit result k ≡ (has_bit word k || nat_eq k b) }
{
    word | 1 << b
}

/// The bits from that one on.
pub fn bits_from(b: u32) -> u64
    requires { b < 64 }
    ensures { (k : ℕ) → k < 64 → has_bit result k ≡ nat_le b k }
{
    u64::MAX << b
}

/// That many bits, the lowest.
pub fn lowest_bits(n: u32) -> u64
    requires some { 0 < n }
    requires within { n ≤ 64 }
    ensures { (k : ℕ) → k < 64 → has_bit result k ≡ nat_lt k n }
{
    u64::MAX >> (64 - n)
}

/// Those of the bits that are among the `n` lowest.
pub fn bits_below(bits: u64, n: u32) -> u64
    requires { 0 < n }
    ensures { (k : ℕ) → k < 64 → has_bit result k ≡ (has_bit bits k && nat_lt k n) }
{
    bits & lowest_bits(n.min(64))
}

/// The bits of word n at the indices from `lo` up to `hi`, `hi` excluded.
pub fn bits_of_range(n: u32, lo: u32, hi: u32) -> u64
    requires from { lo / 64 ≤ n }
    requires to { 64 * n < hi }
    ensures { (k : ℕ) → k < 64 → has_bit result k ≡ (nat_le lo (64 * n + k) && nat_lt (64 * n + k) hi) }
{
    let base = 64 * n;
    bits_from(lo.saturating_sub(base)) & lowest_bits((hi - base).min(64))
}

/// The lowest bit that is set.
pub fn lowest_bit(word: u64) -> u32
    requires { 0 < word }
    ensures within { result < 64 }
    ensures set { has_bit word result ≡ true }
    ensures lowest { (k : ℕ) → k < result → has_bit word k ≡ false }
{
    word.trailing_zeros()
}

/// The highest bit that is set.
#[inline]
pub fn highest_bit(word: u64) -> u32
    requires { 0 < word }
    ensures within { result < 64 }
    ensures set { has_bit word result ≡ true }
    ensures highest { (k : ℕ) → result < k → has_bit word k ≡ false }
{
    63 - word.leading_zeros()
}
