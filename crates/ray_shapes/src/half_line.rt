ghost use Rattle.std.specs.Prelude.{◌≡◌, ℕ, ◌+◌, ◌*◌, ◌<◌, ◌≤◌, ◌↔◌, IsTrue, pos, ◌≤ℤ◌, ◌+ℤ◌, ◌-ℤ◌, ◌*ℤ◌, unsigned_abs, FitsSigned};
ghost use Rattle.std.specs.Int.{w64};
ghost use Rattle.ray_grid.specs.Selects.{Selects};
ghost use Rattle.ray_shapes.specs.Sizes.{IsTerm};

/// Indices from `lo` up to `hi`, `hi` excluded.
#[derive(Clone, Copy)]
pub struct IndexRange {
    pub lo: u32,
    pub hi: u32,
}

/// A value that rises with the index l, `start + slope * l`, and a limit.
#[derive(Clone, Copy)]
pub struct Ramp {
    pub start: i64,
    pub slope: i64,
    pub limit: i64,
}

impl Ramp {
    /// The part of an interval where the value is at most the limit, found by one division.
    ///
    /// The value rises or falls with the index by the slope, so it is at most the limit on a half-line of
    /// indices. Where it is within the limit at both ends, all of the interval is; at neither, none is. Else the steps that fit
    /// between the limit and the value at the end that is within it are counted from that end, so the
    /// quotient is rounded down for a slope of either sign.
    pub fn half_line(&self, part: IndexRange) -> IndexRange
        requires some { part.lo < part.hi }
        requires start { IsTerm self.now.start }
        requires rise { (l : ℕ) → l < part.hi → IsTerm (self.now.slope *ℤ pos l) }
        ensures order { result.lo ≤ result.hi }
        ensures within { result.hi ≤ part.hi }
        ensures exact { Selects result.lo result.hi (λ l. (part.lo ≤ l) × (l < part.hi)
            × ((self.now.start +ℤ (self.now.slope *ℤ pos l)) ≤ℤ self.now.limit)) }
    {
        if self.slope == 0 {
            return self.all_or_none(part);
        }
        let last = part.hi - 1;
        if self.is_within(part.lo) {
            if self.is_within(last) {
                return part;
            }
            return IndexRange {
                lo: part.lo,
                hi: part.lo + self.steps_up(part.lo, last) + 1,
            };
        }
        if self.is_within(last) {
            return IndexRange {
                lo: last - self.steps_down(part.lo, last),
                hi: part.hi,
            };
        }
        IndexRange {
            lo: part.lo,
            hi: part.lo,
        }
    }

    /// The part of an interval where a value that is the same at each index is at most the limit: all of it, or nothing.
    #[inline]
    fn all_or_none(&self, part: IndexRange) -> IndexRange
        requires level { self.now.slope ≡ pos 0 }
        requires some { part.lo < part.hi }
        ensures order { result.lo ≤ result.hi }
        ensures within { result.hi ≤ part.hi }
        ensures exact { Selects result.lo result.hi (λ l. (part.lo ≤ l) × (l < part.hi)
            × ((self.now.start +ℤ (self.now.slope *ℤ pos l)) ≤ℤ self.now.limit)) }
    {
        if self.start <= self.limit {
            return part;
        }
        IndexRange {
            lo: part.lo,
            hi: part.lo,
        }
    }

    /// The value at an index.
    #[inline]
    fn value_at(&self, l: u32) -> i64
        requires start { IsTerm self.now.start }
        requires rise { IsTerm (self.now.slope *ℤ pos l) }
        ensures { result ≡ self.now.start +ℤ (self.now.slope *ℤ pos l) }
    {
        self.start + self.slope * i64::from(l)
    }

    /// Whether the value at an index is at most the limit.
    #[inline]
    fn is_within(&self, l: u32) -> bool
        requires start { IsTerm self.now.start }
        requires rise { IsTerm (self.now.slope *ℤ pos l) }
        ensures { IsTrue result ↔ ((self.now.start +ℤ (self.now.slope *ℤ pos l)) ≤ℤ self.now.limit) }
    {
        self.value_at(l) <= self.limit
    }

    /// How many whole steps the value takes from the index `lo` within the limit, where it is beyond it at `last`.
    fn steps_up(&self, lo: u32, last: u32) -> u32
        requires order { lo ≤ last }
        requires start { IsTerm self.now.start }
        requires first_rise { IsTerm (self.now.slope *ℤ pos lo) }
        requires last_rise { IsTerm (self.now.slope *ℤ pos last) }
        requires first { (self.now.start +ℤ (self.now.slope *ℤ pos lo)) ≤ℤ self.now.limit }
        requires beyond { ¬ ((self.now.start +ℤ (self.now.slope *ℤ pos last)) ≤ℤ self.now.limit) }
        ensures inside { lo + result < last }
        ensures exact { (l : ℕ) → lo ≤ l
            → (l ≤ lo + result) ↔ ((self.now.start +ℤ (self.now.slope *ℤ pos l)) ≤ℤ self.now.limit) }
    {
        self.whole_steps(self.value_at(lo)) as u32
    }

    /// How many whole steps back the value takes from the index `last` within the limit, where it is beyond it at `lo`.
    fn steps_down(&self, lo: u32, last: u32) -> u32
        requires order { lo ≤ last }
        requires start { IsTerm self.now.start }
        requires first_rise { IsTerm (self.now.slope *ℤ pos lo) }
        requires last_rise { IsTerm (self.now.slope *ℤ pos last) }
        requires beyond { ¬ ((self.now.start +ℤ (self.now.slope *ℤ pos lo)) ≤ℤ self.now.limit) }
        requires last { (self.now.start +ℤ (self.now.slope *ℤ pos last)) ≤ℤ self.now.limit }
        ensures inside { lo + result < last }
        ensures exact { (l : ℕ) → l ≤ last
            → (last ≤ l + result) ↔ ((self.now.start +ℤ (self.now.slope *ℤ pos l)) ≤ℤ self.now.limit) }
    {
        self.whole_steps(self.value_at(last)) as u32
    }

    /// How many whole steps of the slope's size lie between a value and the limit above it.
    fn whole_steps(&self, value: i64) -> u64
        requires below { value ≤ℤ self.now.limit }
        requires small { FitsSigned w64 (self.now.limit -ℤ value) }
        requires slope { 0 < unsigned_abs self.now.slope }
        ensures { (n : ℕ) → (n ≤ result) ↔ ((value +ℤ pos (n * unsigned_abs self.now.slope)) ≤ℤ self.now.limit) }
    {
        (self.limit - value).unsigned_abs() / self.slope.unsigned_abs()
    }
}
