ghost use Rattle.std.specs.Prelude.{◌≡◌, ℕ, ◌-◌, ◌%◌, ◌^◌, ◌<◌, ◌≤◌};
ghost use Rattle.std.specs.Option.{IfNone, IfSome};
ghost use Rattle.strip_journal.specs.Packed.{IsClose, as_word_change, unpacked};

use strip_marks::WordChange;

/// A change in less: most change points that lie close together. The masks count from the first of them.
#[derive(Clone, Copy)]
pub struct PackedChange {
    /// The ray's number in its strip; of a change that is kept whole its place among those.
    pub ray: u32,
    /// The point of the ray from which the masks count; of a change that is kept whole the mark.
    pub first: u32,
    pub sure: u32,
    pub possible: u32,
}

/// The mark of a change that is kept whole. No point of a ray has this number.
const WHOLE: u32 = u32::MAX;

/// The words of a ray are numbered below this.
const MOST_WORDS: u32 = 1 << 26;

const NO_CHANGE: WordChange = WordChange {
    ray: 0,
    word: 0,
    sure: 0,
    possible: 0,
};

/// The bit from which the masks of a change count: that of its first point, or 32 where none is lower.
fn first_bit(change: &WordChange) -> u32
    ensures most { result ≤ 32 }
    ensures sure { change.now.sure % 2 ^ result ≡ 0 }
    ensures possible { change.now.possible % 2 ^ result ≡ 0 }
    ensures last { (q : ℕ) → q ≤ 32 → change.now.sure % 2 ^ q ≡ 0 → change.now.possible % 2 ^ q ≡ 0 → q ≤ result }
{
    let sure = change.sure.trailing_zeros();
    let possible = change.possible.trailing_zeros();
    sure.min(possible).min(32)
}

impl PackedChange {
    /// A change in less, where its points lie close enough together.
    pub fn of_change(change: &WordChange) -> Option<PackedChange>
        ensures packed { IfSome result (λ p. (p.first < 2 ^ 32 - 1) × (as_word_change p ≡ change.now)) }
        ensures none { IfNone result (IsClose change.now → ⊥) }
    {
        if change.word >= MOST_WORDS {
            return None;
        }
        let by = first_bit(change);
        let sure = u32::try_from(change.sure >> by).ok()?;
        let possible = u32::try_from(change.possible >> by).ok()?;
        Some(PackedChange {
            ray: change.ray,
            first: change.word * 64 + by,
            sure,
            possible,
        })
    }

    /// The mark of the change at a place among those that are kept whole.
    pub fn of_place(place: u32) -> PackedChange
        ensures { result ≡ record { ray = place; first = 2 ^ 32 - 1; sure = 0; possible = 0 } }
    {
        PackedChange {
            ray: place,
            first: WHOLE,
            sure: 0,
            possible: 0,
        }
    }

    /// The change by its masks.
    fn as_word_change(&self) -> WordChange
        ensures { result ≡ as_word_change self.now }
    {
        let by = self.first % 64;
        WordChange {
            ray: self.ray,
            word: self.first / 64,
            sure: u64::from(self.sure) << by,
            possible: u64::from(self.possible) << by,
        }
    }

    /// The change, with those that are kept whole.
    #[inline]
    pub fn unpack(&self, whole: &[WordChange]) -> WordChange
        ensures { result ≡ unpacked whole.now self.now }
    {
        if self.first != WHOLE {
            return self.as_word_change();
        }
        match whole.get(self.ray as usize) {
            Some(change) => *change,
            None => NO_CHANGE,
        }
    }
}
