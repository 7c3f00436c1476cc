ghost use Rattle.std.specs.Prelude.{◌≡◌, ℕ, ◌*◌, ◌^◌, ◌<◌, ◌≤◌, ◌&&◌, false, not, if◌then◌else◌, MatchOption, length};
ghost use Rattle.vf_spans.specs.Members.{count_below};
ghost use Rattle.vf_spans.specs.Merge.{combined};
ghost use Rattle.vf_spans.specs.Words.{has_bit, in_words, IsFirstFlag, HasNoFlag};

use crate::bits::{bits_from, lowest_bit};
use crate::merge::Operation;

/// Takes every flag out.
pub fn clear_words(words: &mut [u64])
    ensures { (i : ℕ) → in_words words.new i ≡ false }
{
    for n in 0..words.len() {
        words[n] = 0;
    }
}

/// What the operation makes of two words, bit by bit.
fn combine_bits(a: u64, b: u64, operation: Operation) -> u64
    ensures { (k : ℕ) → k < 64 → has_bit result k ≡ combined operation (has_bit a k) (has_bit b k) }
{
    match operation {
        Operation::Union => a | b,
        Operation::Minus => a & !b,
        Operation::Meet => a & b,
    }
}

/// Writes what the operation makes of the words and as many others over the words.
pub fn combine_words(words: &mut [u64], other: &[u64], operation: Operation)
    requires { length other.now ≡ length words.old }
    ensures { (i : ℕ) → in_words words.new i ≡ combined operation (in_words words.old i) (in_words other.now i) }
{
    for n in 0..words.len() {
        words[n] = combine_bits(words[n], other[n], operation);
    }
}

/// The bits of the word, or those that it has not.
fn bits_sought(word: u64, sought: bool) -> u64
    ensures { (k : ℕ) → k < 64 → has_bit result k ≡ (if sought then has_bit word k else not (has_bit word k)) }
{
    if sought { word } else { !word }
}

/// The least index from `i` on whose flag is the one sought, by the first word that has one.
pub fn find_flag(words: &[u64], sought: bool, i: u32) -> Option<u32>
    requires { 64 * length words.now ≤ 2 ^ 32 }
    ensures { MatchOption result (HasNoFlag words.now sought i) (λ r. IsFirstFlag words.now sought i r) }
{
    let mut n = i / 64;
    let mut mask = bits_from(i % 64);
    while (n as usize) < words.len() {
        let bits = bits_sought(words[n as usize], sought) & mask;
        if bits != 0 {
            return Some(64 * n + lowest_bit(bits));
        }
        mask = u64::MAX;
        n += 1;
    }
    None
}

/// How many flags of the words are set.
pub fn count_flags(a: &[u64]) -> u64
    requires { 64 * length a.now ≤ 2 ^ 32 }
    ensures { result ≡ count_below (64 * length a.now) (in_words a.now) }
{
    let mut total = 0;
    for n in 0..a.len() {
        total += u64::from(a[n].count_ones());
    }
    total
}

/// How many flags are set in both lists of words.
pub fn count_flags_meet(a: &[u64], b: &[u64]) -> u64
    requires within { 64 * length a.now ≤ 2 ^ 32 }
    requires second { length b.now ≡ length a.now }
    ensures { result ≡ count_below (64 * length a.now) (λ i. in_words a.now i && in_words b.now i) }
{
    let mut total = 0;
    for n in 0..a.len() {
        total += u64::from((a[n] & b[n]).count_ones());
    }
    total
}

/// How many flags are set in the first list of words and not in the second.
pub fn count_flags_minus(a: &[u64], b: &[u64]) -> u64
    requires within { 64 * length a.now ≤ 2 ^ 32 }
    requires second { length b.now ≡ length a.now }
    ensures { result ≡ count_below (64 * length a.now) (λ i. in_words a.now i && not (in_words b.now i)) }
{
    let mut total = 0;
    for n in 0..a.len() {
        total += u64::from((a[n] & !b[n]).count_ones());
    }
    total
}

/// How many flags are set in the first two lists of words and not in the third.
pub fn count_flags_meet_minus(a: &[u64], b: &[u64], c: &[u64]) -> u64
    requires within { 64 * length a.now ≤ 2 ^ 32 }
    requires second { length b.now ≡ length a.now }
    requires third { length c.now ≡ length a.now }
    ensures { result ≡ count_below (64 * length a.now) (λ i. in_words a.now i && (in_words b.now i && not (in_words c.now i))) }
{
    let mut total = 0;
    for n in 0..a.len() {
        total += u64::from((a[n] & b[n] & !c[n]).count_ones());
    }
    total
}
