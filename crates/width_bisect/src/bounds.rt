ghost use Rattle.std.specs.Prelude.{◌≡◌, ℕ, ℤ, List};
ghost use Rattle.bern_form.specs.Slab.{SlabSize};
ghost use Rattle.width_bisect.specs.Bounds.{HoldsBy, is_between, meets, no_bounds};

use crate::sample::Sample;

/// What a slab requires of the points at a sample: u^2 is between two numbers, and the width no greater than a third one.
#[derive(Clone, Copy)]
pub struct Bounds {
    pub low: i128,
    pub high: i128,
    pub width: i128,
}

impl Bounds {
    /// Those that no point meets.
    pub fn nowhere() -> Bounds
        ensures value { result ≡ no_bounds }
        ensures held { (S : ℕ) (n : ℤ) (slabs : List SlabSize) → HoldsBy result S n slabs }
    {
        Bounds {
            low: 1,
            high: 0,
            width: 0,
        }
    }

    /// Whether the point is at the slab's height.
    #[inline]
    pub fn is_between(&self, at: &Sample) -> bool
        ensures { result ≡ is_between self.now at.now.u }
    {
        let height = at.height();
        self.low <= height && height <= self.high
    }

    /// Whether the slab holds the point, where it is ahead of the tip.
    #[inline]
    pub fn holds(&self, at: &Sample) -> bool
        ensures { result ≡ meets self.now at.now.u at.now.width }
    {
        if !self.is_between(at) {
            return false;
        }
        at.width <= self.width
    }
}
