ghost use Rattle.std.specs.Prelude.{◌≡◌, ℕ, ◌<◌, ◌≤◌, [], ◌∷◌, ◌++◌, IfOk, OnErr, OnOk, length, slice_set};
ghost use Rattle.vf_spans.specs.Words.{words_below};
ghost use Rattle.ray_words.specs.Rays.{HasAllWanted, HasNoneWanted, IsBelow, IsCleared, IsGiven, IsKept, IsTaken};
ghost use Rattle.ray_words.specs.Rows.{kept_at};

use crate::settled::Settled;
use crate::word_ray::WordRay;
use dexel_rays::WordDelta;
use std::alloc::Global;
use std::marker::Model;
use vf_io::NoMemory;

/// The rays of a strip. Of a range of indices of each it is known that no move has to be tested there, so that the words are not looked
/// at for it. The ranges are in a list of their own, since mostly nothing else is read of a ray.
#[derive(Drop)]
pub struct StripRays {
    rays: Vec<WordRay>,
    settled: Vec<Settled>,
}

impl Model for StripRays {
    ghost use Rattle.std.specs.Prelude.{List};
    ghost use Rattle.ray_words.specs.Rays.{KeptSets};
    ghost use Rattle.ray_words.specs.Rows.{AreSettled};

    ghost Value = { List KeptSets };

    ghost view = { λ r. r.rays.items };

    ghost invariant = { λ r. AreSettled r.rays.items r.settled.items };
}

/// The settled range of a ray once points of word n have become sure.
#[inline]
fn grown(ray: &WordRay, settled: Settled, n: u32, sure: u64) -> Settled
    requires { HasNoneWanted ray.now.sets settled }
    ensures { HasNoneWanted ray.now.sets result }
{
    settled.grown(n, sure, !ray.wanted(n))
}

/// The settled range of a ray of which no more is known: of the two ends at which it has no body the longer one.
fn bare_end(ray: &WordRay) -> Settled
    ensures { HasNoneWanted ray.now.sets result }
{
    Settled::of(ray.bare_end())
}

impl StripRays {
    /// No ray, with room for `count` rays.
    pub fn with_capacity(alloc: Global, count: usize) -> Result<StripRays, NoMemory>
        ensures { IfOk result (λ row. row ≡ []) }
    {
        let rays = Vec::with_capacity(alloc, count)?;
        let settled = Vec::with_capacity(alloc, count)?;
        Ok(StripRays { rays, settled })
    }

    /// Adds a ray after the others.
    pub fn push(&mut self, ray: WordRay) -> Result<(), NoMemory>
        ensures ok { OnOk result (self.new ≡ self.old ++ ray ∷ []) }
        ensures unchanged { OnErr result (self.new ≡ self.old) }
    {
        self.settled.reserve(1)?;
        let settled = bare_end(&ray);
        self.rays.push(ray)?;
        let _noted = self.settled.push(settled);
        Ok(())
    }

    /// Ray n.
    #[inline]
    pub fn ray(&self, n: u32) -> &WordRay
        requires { n < length self.now }
        ensures { result.now ≡ kept_at self.now n }
    {
        &self.rays[n as usize]
    }

    /// What is left of a window of ray n where points that are no candidates are taken off at either end.
    #[inline]
    pub fn unsettled(&self, n: u32, window: (u32, u32)) -> (u32, u32)
        requires n { n < length self.now }
        requires order { window.0 ≤ window.1 }
        ensures { HasAllWanted (kept_at self.now n).sets window result }
    {
        self.settled[n as usize].cut(window)
    }

    /// Keeps the words of ray n from `lo` on and below `hi`, and what is between them and those that are kept already. The sets stay.
    pub fn keep_words(&mut self, n: u32, lo: u32, hi: u32) -> Result<(), NoMemory>
        requires n { n < length self.old }
        requires some { lo < hi }
        requires within { hi ≤ words_below (length (kept_at self.old n).sets.stock) }
        ensures others { self.new ≡ slice_set self.old n (kept_at self.new n) }
        ensures sets { (kept_at self.new n).sets ≡ (kept_at self.old n).sets }
        ensures kept { OnOk result ((word : ℕ) → lo ≤ word → word < hi → IsKept (kept_at self.new n) word) }
        ensures still { OnOk result ((word : ℕ) → IsKept (kept_at self.old n) word → IsKept (kept_at self.new n) word) }
        ensures unchanged { OnErr result (self.new ≡ self.old) }
    {
        self.rays[n as usize].keep_words(lo, hi)
    }

    /// Adds the points of a delta in a word of ray n. It takes no memory.
    pub fn add_delta(&mut self, n: u32, word: u32, delta: &WordDelta)
        requires n { n < length self.old }
        requires kept { IsKept (kept_at self.old n) word }
        requires sure { IsBelow (length (kept_at self.old n).sets.stock) word delta.now.sure }
        requires possible { IsBelow (length (kept_at self.old n).sets.stock) word delta.now.possible }
        ensures others { self.new ≡ slice_set self.old n (kept_at self.new n) }
        ensures given { IsGiven (kept_at self.old n).sets word delta.now (kept_at self.new n).sets }
        ensures first { (kept_at self.new n).first ≡ (kept_at self.old n).first }
        ensures count { (kept_at self.new n).count ≡ (kept_at self.old n).count }
    {
        let at = n as usize;
        self.rays[at].add_delta(word, delta);
        self.settled[at] = grown(&self.rays[at], self.settled[at], word, delta.sure);
    }

    /// Takes the points of a delta in a word of ray n away. It takes no memory.
    pub fn remove_delta(&mut self, n: u32, word: u32, delta: &WordDelta)
        requires n { n < length self.old }
        requires kept { IsKept (kept_at self.old n) word }
        ensures others { self.new ≡ slice_set self.old n (kept_at self.new n) }
        ensures taken { IsTaken (kept_at self.old n).sets word delta.now (kept_at self.new n).sets }
        ensures first { (kept_at self.new n).first ≡ (kept_at self.old n).first }
        ensures count { (kept_at self.new n).count ≡ (kept_at self.old n).count }
    {
        let at = n as usize;
        self.rays[at].remove_delta(word, delta);
        self.settled[at] = bare_end(&self.rays[at]);
    }

    /// Forgets what moves were sure of or possible at on ray n: no word of it is kept. It takes no memory.
    pub fn clear(&mut self, n: u32)
        requires { n < length self.old }
        ensures others { self.new ≡ slice_set self.old n (kept_at self.new n) }
        ensures cleared { IsCleared (kept_at self.old n).sets (kept_at self.new n).sets }
        ensures none { (kept_at self.new n).count ≡ 0 }
    {
        self.rays[n as usize].clear();
        self.settled[n as usize] = bare_end(&self.rays[n as usize]);
    }
}
