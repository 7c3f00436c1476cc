ghost use Rattle.std.specs.Prelude.{◌≡◌, ℕ, ◌+◌, ◌<◌, ◌≤◌, ◌&&◌, not, nat_eq, true, false};
ghost use Rattle.vf_spans.specs.Words.{has_bit};
ghost use Rattle.wanted_marks.specs.Progress.{AreAmong, AreRemoved, FollowsFrom, IsProgressOf};
ghost use Rattle.wanted_marks.specs.Rays.{RayOf, is_possible_at, is_sure_at};
ghost use Rattle.wanted_marks.specs.Told.{tells_possible, tells_sure};

use crate::word::{WordMarks, without_bit};
use axis_cells::Mark;

/// What is marked of a word so far, and which of its wanted points are left.
#[derive(Clone, Copy)]
pub struct WordProgress {
    pub marks: WordMarks,
    pub rest: u64,
}

impl WordProgress {
    /// Where nothing is marked yet.
    #[inline]
    pub fn of_word(wanted: u64) -> WordProgress
        ensures rest { result.rest ≡ wanted }
        ensures progress { (r : RayOf) (first sure_only : ℕ) → IsProgressOf result r first wanted sure_only }
    {
        WordProgress {
            marks: WordMarks {
                sure: 0,
                possible: 0,
            },
            rest: wanted,
        }
    }

    /// With the mark of the point at bit b, which is left.
    #[inline]
    pub fn with_mark(self, b: u32, mark: Mark) -> WordProgress
        requires bit { b < 64 }
        requires left { has_bit self.rest b ≡ true }
        ensures rest { (k : ℕ) → k < 64 → has_bit result.rest k ≡ (has_bit self.rest k && not (nat_eq k b)) }
        ensures less { result.rest < self.rest }
        ensures progress { (r : RayOf) (first sure_only : ℕ) → tells_sure mark ≡ is_sure_at r (first + b)
            → (has_bit sure_only b ≡ false → tells_possible mark ≡ is_possible_at r (first + b))
            → FollowsFrom result self r first sure_only }
    {
        WordProgress {
            marks: self.marks.with_mark(b, mark),
            rest: without_bit(self.rest, b),
        }
    }

    /// With all points that are left sure.
    #[inline]
    pub fn with_rest_removed(self) -> WordProgress
        ensures rest { result.rest ≡ 0 }
        ensures progress { (r : RayOf) (first sure_only : ℕ) → AreRemoved r first self.rest → FollowsFrom result self r first sure_only }
    {
        WordProgress {
            marks: WordMarks {
                sure: self.marks.sure | self.rest,
                possible: self.marks.possible | self.rest,
            },
            rest: 0,
        }
    }

    /// With some of the points that are left sure, those of these bits.
    #[inline]
    pub fn with_run(self, bits: u64) -> WordProgress
        requires { AreAmong bits self.rest }
        ensures fewer { AreAmong result.rest self.rest }
        ensures less { result.rest ≤ self.rest }
        ensures progress { (r : RayOf) (first sure_only : ℕ) → AreRemoved r first bits → FollowsFrom result self r first sure_only }
    {
        WordProgress {
            marks: self.marks.with_sure(bits),
            rest: self.rest & !bits,
        }
    }
}
