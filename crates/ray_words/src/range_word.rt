ghost use Rattle.std.specs.Prelude.{◌≡◌, ℕ, ◌+◌, ◌*◌, ◌/◌, ◌<◌, ◌≤◌, ◌↔◌, true, IsTrue};
ghost use Rattle.vf_spans.specs.Members.{has, in_range};
ghost use Rattle.vf_spans.specs.Words.{has_bit};

use vf_spans::Spans;
use vf_spans::bits::bits_of_range;

/// Whether a range has an index in word n.
fn enters(n: u32, range: (u32, u32)) -> bool
    ensures { IsTrue result ↔ ((range.0 / 64 ≤ n) × (64 * n < range.1)) }
{
    range.0 / 64 <= n && u64::from(n) * 64 < u64::from(range.1)
}

/// The bits of word n at the indices of a range.
fn bits_within(n: u32, range: (u32, u32)) -> u64
    ensures { (b : ℕ) → b < 64 → has_bit result b ≡ in_range (64 * n + b) range }
{
    if enters(n, range) {
        bits_of_range(n, range.0, range.1)
    } else {
        0
    }
}

/// Word n of a set: bit b is the index 64 n + b.
pub fn word_of(set: &Spans, n: u32) -> u64
    ensures { (b : ℕ) → b < 64 → has_bit result b ≡ has set.now (64 * n + b) }
{
    let mut word = 0;
    for r in 0..set.ranges() {
        word |= bits_within(n, set.range(r));
    }
    word
}

/// A range with each index of a set; of an empty set one that ends before it begins.
pub fn extent(set: &Spans) -> (u32, u32)
    ensures { (i : ℕ) → has set.now i ≡ true → (result.0 ≤ i) × (i < result.1) }
{
    let (mut lo, mut hi) = (set.bound(), 0_u32);
    for r in 0..set.ranges() {
        let (from, to) = set.range(r);
        lo = lo.min(from);
        hi = hi.max(to);
    }
    (lo, hi)
}
