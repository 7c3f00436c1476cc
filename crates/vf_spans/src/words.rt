ghost use Rattle.std.specs.Prelude.{◌≡◌, ℕ, ◌+◌, ◌*◌, ◌/◌, ◌%◌, ◌^◌, ◌<◌, ◌≤◌, ◌↔◌, ◌&&◌, ◌||◌, not, nat_eq, List, Bool, true, false, IsTrue, IfOk, if◌then◌else◌, MatchOption, nat_le, nat_lt, length};
ghost use Rattle.vf_spans.specs.Members.{has, count_of, count_below, in_range};
ghost use Rattle.vf_spans.specs.Merge.{combined};
ghost use Rattle.vf_spans.specs.Words.{has_bit, in_words, in_word, word_of_set, words_below, flags_of_words, AreWords, HasNoneFrom, IsNext, IsRun};

use crate::Spans;
use crate::bits::{bits_below, bits_of_range, has_bit, with_bit};
use crate::merge::Operation;
use crate::word_list::{
    clear_words, combine_words, count_flags, count_flags_meet, count_flags_meet_minus,
    count_flags_minus, find_flag,
};
use std::alloc::Global;
use std::marker::Model;
use vf_io::NoMemory;

/// A set of indices below a bound, kept as words of 64 flags.
///
/// To contracts it is the same list of flags as `Spans`. Bit b of word n is the index 64 n + b. Its
/// operations go a word at a time and, except those that make a set, take no memory.
#[derive(Drop)]
pub struct Words {
    bound: u32,
    words: Vec<u64>,
}

impl Model for Words {
    ghost Value = { List Bool };

    ghost view = { λ s. flags_of_words s.bound s.words.items };

    ghost invariant = { λ s. AreWords s.bound s.words.items };
}

impl Words {
    /// The empty set.
    pub fn new(alloc: Global, bound: u32) -> Result<Words, NoMemory>
        ensures bound { IfOk result (λ r. length r ≡ bound) }
        ensures empty { IfOk result (λ r. (i : ℕ) → has r i ≡ false) }
    {
        let words = vec![in alloc; 0u64; bound.div_ceil(64) as usize]?;
        Ok(Words { bound, words })
    }

    /// The set that has the same indices as these ranges, with their bound.
    pub fn from_spans(alloc: Global, set: &Spans) -> Result<Words, NoMemory>
        ensures { IfOk result (λ r. r ≡ set.now) }
    {
        let mut words = Words::new(alloc, set.bound())?;
        for n in 0..set.ranges() {
            let (lo, hi) = set.range(n);
            words.insert_range(lo, hi);
        }
        Ok(words)
    }

    /// The same set as ranges, a run of indices at a time.
    pub fn to_spans(&self) -> Result<Spans, NoMemory>
        ensures { IfOk result (λ r. r ≡ self.now) }
    {
        let mut set = Spans::new(*self.words.allocator(), self.bound);
        let mut i = 0;
        while let Some(lo) = self.next_from(i) {
            let hi = self.run_end(lo);
            set.push_range(lo, hi)?;
            i = hi;
        }
        Ok(set)
    }

    /// The same set with the same bound.
    pub fn copy(&self) -> Result<Words, NoMemory>
        ensures { IfOk result (λ r. r ≡ self.now) }
    {
        let words = Vec::from_slice(*self.words.allocator(), self.words.as_slice())?;
        Ok(Words {
            bound: self.bound,
            words,
        })
    }

    /// The indices of the set are below the bound.
    pub fn bound(&self) -> u32
        ensures { result ≡ length self.now }
    {
        self.bound
    }

    /// Whether the set has the index.
    pub fn has(&self, i: u32) -> bool
        ensures { result ≡ has self.now i }
    {
        i < self.bound() && has_bit(self.word(i / 64), i % 64)
    }

    /// Whether the set has no index.
    pub fn is_empty(&self) -> bool
        ensures { IsTrue result ↔ ((i : ℕ) → has self.now i ≡ false) }
    {
        self.next_from(0).is_none()
    }

    /// The least index of the set that is at least `i`, if there is one.
    pub fn next_from(&self, i: u32) -> Option<u32>
        ensures { MatchOption result (HasNoneFrom self.now i) (λ r. IsNext self.now i r) }
    {
        find_flag(self.as_slice(), true, i)
    }

    /// The least index from `i` on that the set has not; the bound is none of its indices.
    pub fn run_end(&self, i: u32) -> u32
        requires { i ≤ length self.now }
        ensures { IsRun self.now i result }
    {
        match find_flag(self.as_slice(), false, i) {
            Some(end) => end,
            None => self.bound(),
        }
    }

    /// How many indices the set has.
    pub fn count(&self) -> u32
        ensures { result ≡ count_of self.now }
    {
        count_flags(self.as_slice()) as u32
    }

    /// How many indices both sets have.
    pub fn count_meet(&self, other: &Words) -> u32
        requires { length other.now ≡ length self.now }
        ensures { result ≡ count_below (length self.now) (λ i. has self.now i && has other.now i) }
    {
        count_flags_meet(self.as_slice(), other.as_slice()) as u32
    }

    /// How many indices this set has and the other has not.
    pub fn count_minus(&self, other: &Words) -> u32
        requires { length other.now ≡ length self.now }
        ensures { result ≡ count_below (length self.now) (λ i. has self.now i && not (has other.now i)) }
    {
        count_flags_minus(self.as_slice(), other.as_slice()) as u32
    }

    /// How many indices this set and the second have and the third has not.
    pub fn count_meet_minus(&self, second: &Words, third: &Words) -> u32
        requires second { length second.now ≡ length self.now }
        requires third { length third.now ≡ length self.now }
        ensures { result ≡ count_below (length self.now) (λ i. has self.now i && (has second.now i && not (has third.now i))) }
    {
        count_flags_meet_minus(self.as_slice(), second.as_slice(), third.as_slice()) as u32
    }

    /// How many words the set has: as many as its bound takes, the last perhaps in part.
    pub fn words(&self) -> u32
        ensures { result ≡ words_below (length self.now) }
    {
        self.bound().div_ceil(64)
    }

    /// Word n of the set.
    pub fn word(&self, n: u32) -> u64
        requires { n < words_below (length self.now) }
        ensures value { result ≡ word_of_set self.now n }
        ensures bits { (b : ℕ) → b < 64 → has_bit result b ≡ has self.now (64 * n + b) }
    {
        self.as_slice()[n as usize]
    }

    /// Adds the indices of these bits of word n; bits at and beyond the bound are left out.
    pub fn or_word(&mut self, n: u32, bits: u64)
        requires { n < words_below (length self.old) }
        ensures bound { length self.new ≡ length self.old }
        ensures added { (i : ℕ) → i < length self.old → has self.new i ≡ (has self.old i || in_word n bits i) }
    {
        let inside = bits_below(bits, self.bound() - 64 * n);
        let word = self.word(n) | inside;
        self.set_word(n, word);
    }

    /// Takes the indices of these bits of word n away.
    pub fn minus_word(&mut self, n: u32, bits: u64)
        requires { n < words_below (length self.old) }
        ensures bound { length self.new ≡ length self.old }
        ensures taken { (i : ℕ) → has self.new i ≡ (has self.old i && not (in_word n bits i)) }
    {
        let word = self.word(n) & !bits;
        self.set_word(n, word);
    }

    /// Adds one index.
    pub fn insert(&mut self, i: u32)
        requires { i < length self.old }
        ensures bound { length self.new ≡ length self.old }
        ensures added { (k : ℕ) → has self.new k ≡ (has self.old k || nat_eq k i) }
    {
        let word = with_bit(self.word(i / 64), i % 64);
        self.set_word(i / 64, word);
    }

    /// Adds the indices from `lo` up to `hi`, `hi` excluded.
    pub fn insert_range(&mut self, lo: u32, hi: u32)
        requires not_empty { lo < hi }
        requires within { hi ≤ length self.old }
        ensures bound { length self.new ≡ length self.old }
        ensures added { (i : ℕ) → has self.new i ≡ (has self.old i || (nat_le lo i && nat_lt i hi)) }
    {
        for n in lo / 64..hi.div_ceil(64) {
            self.or_word(n, bits_of_range(n, lo, hi));
        }
    }

    /// Leaves the set empty, with the same bound.
    pub fn clear(&mut self)
        ensures bound { length self.new ≡ length self.old }
        ensures empty { (i : ℕ) → has self.new i ≡ false }
    {
        clear_words(self.words.as_mut_slice());
    }

    /// Adds the indices of the other set.
    pub fn unite(&mut self, other: &Words)
        requires { length other.now ≡ length self.old }
        ensures bound { length self.new ≡ length self.old }
        ensures union { (i : ℕ) → has self.new i ≡ (has self.old i || has other.now i) }
    {
        self.combine(other, Operation::Union);
    }

    /// Takes the indices of the other set away.
    pub fn remove(&mut self, other: &Words)
        requires { length other.now ≡ length self.old }
        ensures bound { length self.new ≡ length self.old }
        ensures minus { (i : ℕ) → has self.new i ≡ (has self.old i && not (has other.now i)) }
    {
        self.combine(other, Operation::Minus);
    }

    /// Keeps those indices that the other set has too.
    pub fn keep(&mut self, other: &Words)
        requires { length other.now ≡ length self.old }
        ensures bound { length self.new ≡ length self.old }
        ensures meet { (i : ℕ) → has self.new i ≡ (has self.old i && has other.now i) }
    {
        self.combine(other, Operation::Meet);
    }

    fn combine(&mut self, other: &Words, operation: Operation)
        requires { length other.now ≡ length self.old }
        ensures bound { length self.new ≡ length self.old }
        ensures combined { (i : ℕ) → has self.new i ≡ combined operation (has self.old i) (has other.now i) }
    {
        combine_words(self.words.as_mut_slice(), other.as_slice(), operation);
    }

    /// The words in order.
    fn as_slice(&self) -> &[u64]
        ensures fits { length self.now < 2 ^ 32 }
        ensures words { AreWords (length self.now) result.now }
        ensures flags { (i : ℕ) → in_words result.now i ≡ has self.now i }
    {
        // The bound fits.
        let _bound = self.bound;
        self.words.as_slice()
    }

    /// Writes word n.
    fn set_word(&mut self, n: u32, word: u64)
        requires there { n < words_below (length self.old) }
        requires within { (b : ℕ) → b < 64 → length self.old ≤ 64 * n + b → has_bit word b ≡ false }
        ensures bound { length self.new ≡ length self.old }
        ensures written { (i : ℕ) → has self.new i ≡ (if nat_eq (i / 64) n then has_bit word (i % 64) else has self.old i) }
    {
        self.words[n as usize] = word;
    }
}
