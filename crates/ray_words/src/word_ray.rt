ghost use Rattle.std.specs.Prelude.{◌≡◌, ℕ, ◌+◌, ◌*◌, ◌<◌, ◌≤◌, ◌-◌, true, false, IfOk, MatchOption, OnOk, OnErr, length};
ghost use Rattle.vf_spans.specs.Members.{count_of, has};
ghost use Rattle.vf_spans.specs.Words.{has_bit, words_below};
ghost use Rattle.dexel_rays.specs.Sets.{HaveBound};
ghost use Rattle.ray_words.specs.Kept.{AreWordsFrom, IsStretch, IsUnmarked};
ghost use Rattle.ray_words.specs.Rays.{IsBelow, IsCleared, IsGiven, IsKept, HasNoneWanted, IsTaken, IsWordAt, is_wanted_at};

use crate::range_word::{extent, word_of};
use dexel_rays::{WordDelta, WordSets};
use std::alloc::Global;
use std::marker::Model;
use vf_io::NoMemory;
use vf_spans::Spans;
use vf_spans::bits::has_bit;

/// The sets of one ray: the indices that are stock, part and fixture, as ranges, and those of the stock of which some move was sure
/// and at which some move was possible. A stretch of the ray is kept as words of 64 points; beyond it no move was sure or possible.
#[derive(Drop)]
pub struct WordRay {
    stock: Spans,
    part: Spans,
    fixture: Spans,
    first: u32,
    words: Vec<WordSets>,
}

impl Model for WordRay {
    ghost use Rattle.ray_words.specs.Rays.{KeptSets};
    ghost use Rattle.ray_words.specs.Kept.{IsWordRay, kept_of};

    ghost Value = { KeptSets };

    ghost view = { λ r. kept_of r.stock r.part r.fixture r.first r.words.items };

    ghost invariant = { λ r. IsWordRay r.stock r.part r.fixture r.first r.words.items };
}

impl WordRay {
    /// A ray that no move has changed: no word is kept. It takes no memory.
    pub fn new(alloc: Global, stock: Spans, part: Spans, fixture: Spans) -> WordRay
        requires part { length part ≡ length stock }
        requires fixture { length fixture ≡ length stock }
        ensures stock { result.sets.stock ≡ stock }
        ensures part { result.sets.part ≡ part }
        ensures fixture { result.sets.fixture ≡ fixture }
        ensures sure { (i : ℕ) → has result.sets.sure i ≡ false }
        ensures possible { (i : ℕ) → has result.sets.possible i ≡ false }
        ensures bound { HaveBound (length stock) result.sets }
        ensures none { result.count ≡ 0 }
    {
        WordRay {
            stock,
            part,
            fixture,
            first: 0,
            words: Vec::new(alloc),
        }
    }

    /// How many points the ray has; the five sets have this bound.
    pub fn bound(&self) -> u32
        ensures points { result ≡ length self.now.sets.stock }
        ensures all { HaveBound result self.now.sets }
    {
        self.stock.bound()
    }

    /// Whether point l of the ray, counted from 0, is stock, removed or not.
    pub fn has_stock(&self, l: u32) -> bool
        ensures { result ≡ has self.now.sets.stock l }
    {
        self.stock.has(l)
    }

    /// Whether some move was sure of point l of the ray, counted from 0.
    pub fn has_sure(&self, l: u32) -> bool
        ensures { result ≡ has self.now.sets.sure l }
    {
        match self.kept(l / 64) {
            Some(word) => has_bit(word.sure, l % 64),
            None => false,
        }
    }

    /// Whether some move was possible at point l of the ray, counted from 0.
    pub fn has_possible(&self, l: u32) -> bool
        ensures { result ≡ has self.now.sets.possible l }
    {
        match self.kept(l / 64) {
            Some(word) => has_bit(word.possible, l % 64),
            None => false,
        }
    }

    /// How many points of the ray are stock, removed or not.
    pub fn stock_count(&self) -> u32
        ensures { result ≡ count_of self.now.sets.stock }
    {
        self.stock.count()
    }

    /// The five words of the points from the index 64 n on.
    #[inline]
    pub fn word(&self, n: u32) -> WordSets
        ensures { IsWordAt self.now.sets n result }
    {
        match self.kept(n) {
            Some(word) => word,
            None => self.unmarked(n),
        }
    }

    /// The points from the index 64 n on that are candidates for a move. The other words are left alone.
    #[inline]
    pub fn wanted(&self, n: u32) -> u64
        ensures { (b : ℕ) → b < 64 → has_bit result b ≡ is_wanted_at self.now.sets (64 * n + b) }
    {
        self.word(n).wanted()
    }

    /// The longer of the two ends of the ray at which no body has a point, as a range of indices; all of it where none has any.
    pub fn bare_end(&self) -> (u32, u32)
        ensures order { result.0 ≤ result.1 }
        ensures none { HasNoneWanted self.now.sets result }
    {
        let bound = self.stock.bound();
        let (from, to) = self.span();
        if bound.saturating_sub(to) < from {
            (0, from)
        } else {
            (to, bound.max(to))
        }
    }

    /// Keeps the words from `lo` on and below `hi`, and what is between them and those that are kept already. The sets stay.
    pub fn keep_words(&mut self, lo: u32, hi: u32) -> Result<(), NoMemory>
        requires some { lo < hi }
        requires within { hi ≤ words_below (length self.old.sets.stock) }
        ensures sets { self.new.sets ≡ self.old.sets }
        ensures kept { OnOk result ((n : ℕ) → lo ≤ n → n < hi → IsKept self.new n) }
        ensures still { OnOk result ((n : ℕ) → IsKept self.old n → IsKept self.new n) }
        ensures unchanged { OnErr result (self.new ≡ self.old) }
    {
        if self.first <= lo && hi <= self.end() {
            return Ok(());
        }
        let (first, end) = self.stretch(lo, hi);
        let words = self.words_from(first, end)?;
        self.first = first;
        self.words = words;
        Ok(())
    }

    /// Adds the points of a delta in word n. It takes no memory.
    pub fn add_delta(&mut self, n: u32, delta: &WordDelta)
        requires kept { IsKept self.old n }
        requires sure { IsBelow (length self.old.sets.stock) n delta.now.sure }
        requires possible { IsBelow (length self.old.sets.stock) n delta.now.possible }
        ensures given { IsGiven self.old.sets n delta.now self.new.sets }
        ensures first { self.new.first ≡ self.old.first }
        ensures count { self.new.count ≡ self.old.count }
    {
        let at = (n - self.first) as usize;
        self.words[at] = self.words[at].with(delta);
    }

    /// Takes the points of a delta in word n away. It takes no memory.
    pub fn remove_delta(&mut self, n: u32, delta: &WordDelta)
        requires kept { IsKept self.old n }
        ensures taken { IsTaken self.old.sets n delta.now self.new.sets }
        ensures first { self.new.first ≡ self.old.first }
        ensures count { self.new.count ≡ self.old.count }
    {
        let at = (n - self.first) as usize;
        self.words[at] = self.words[at].without(delta);
    }

    /// Forgets what moves were sure of or possible at: no word is kept. It takes no memory.
    pub fn clear(&mut self)
        ensures cleared { IsCleared self.old.sets self.new.sets }
        ensures none { self.new.count ≡ 0 }
    {
        self.first = 0;
        self.words.clear();
    }

    /// A range with each index that is stock, part or fixture.
    fn span(&self) -> (u32, u32)
        ensures stock { (i : ℕ) → has self.now.sets.stock i ≡ true → (result.0 ≤ i) × (i < result.1) }
        ensures part { (i : ℕ) → has self.now.sets.part i ≡ true → (result.0 ≤ i) × (i < result.1) }
        ensures fixture { (i : ℕ) → has self.now.sets.fixture i ≡ true → (result.0 ≤ i) × (i < result.1) }
    {
        let stock = extent(&self.stock);
        let part = extent(&self.part);
        let fixture = extent(&self.fixture);
        (
            stock.0.min(part.0).min(fixture.0),
            stock.1.max(part.1).max(fixture.1),
        )
    }

    /// Word n, if it is kept; else no move was sure or possible there.
    #[inline]
    fn kept(&self, n: u32) -> Option<WordSets>
        ensures { MatchOption result (IsUnmarked self.now.sets n) (λ word. IsWordAt self.now.sets n word) }
    {
        if n < self.first {
            return None;
        }
        let at = (n - self.first) as usize;
        if at < self.words.len() {
            Some(self.words[at])
        } else {
            None
        }
    }

    /// The words of the bodies, where no move was sure or possible.
    // Kept apart from `word`, which is then small enough to be inlined into its callers.
    #[inline(never)]
    fn unmarked(&self, n: u32) -> WordSets
        requires { IsUnmarked self.now.sets n }
        ensures { IsWordAt self.now.sets n result }
    {
        WordSets {
            stock: word_of(&self.stock, n),
            part: word_of(&self.part, n),
            fixture: word_of(&self.fixture, n),
            sure: 0,
            possible: 0,
        }
    }

    /// The words from one on and below another, as they are.
    fn words_from(&self, first: u32, end: u32) -> Result<Vec<WordSets>, NoMemory>
        requires ordered { first ≤ end }
        requires within { end ≤ words_below (length self.now.sets.stock) }
        ensures count { IfOk result (λ words. length words.items ≡ end - first) }
        ensures bits { IfOk result (λ words. AreWordsFrom self.now.sets first words.items) }
    {
        let mut words = Vec::with_capacity(*self.words.allocator(), (end - first) as usize)?;
        for n in first..end {
            words.push(self.word(n))?;
        }
        Ok(words)
    }

    /// A stretch with the words from `lo` on and below `hi`, and with those that are kept. Where words are kept and it has to grow, it
    /// grows by as many more: moves that go on along a ray have it copied a few times, and not for each word that they reach.
    fn stretch(&self, lo: u32, hi: u32) -> (u32, u32)
        requires some { lo < hi }
        requires within { hi ≤ words_below (length self.now.sets.stock) }
        ensures { IsStretch self.now lo hi result }
    {
        if self.words.is_empty() {
            return (lo, hi);
        }
        let (first, end) = (self.first, self.end());
        let spare = end - first;
        let words = self.stock.bound().div_ceil(64);
        let from = if first <= lo {
            first
        } else {
            lo.saturating_sub(spare)
        };
        let to = if hi <= end {
            end
        } else {
            hi.saturating_add(spare).min(words)
        };
        (from, to)
    }

    /// The first word past those that are kept.
    fn end(&self) -> u32
        ensures end { result ≡ self.now.first + self.now.count }
        ensures within { result ≤ words_below (length self.now.sets.stock) }
    {
        // The bound fits.
        let _bound = self.stock.bound();
        self.first + self.words.len() as u32
    }
}
