ghost use Rattle.std.specs.Prelude.{◌≡◌, ◌≤◌, ◌+◌, ◌&&◌, ℕ, length, get_or, ◌*ℤ◌, ◌≤ℤ◌, ℤ, pos, int_le, unsigned_abs};
ghost use Rattle.space.specs.Vectors.{at};
ghost use Rattle.bern_form.specs.Cells.{scaled_square};
ghost use Rattle.bern_form.specs.Sizes.{scale_limit};
ghost use Rattle.cutter_slabs.specs.Rising.{IsRising};
ghost use Rattle.box_bisect.specs.SlabTests.{TurnsAt, is_reached, no_slab, some_covers};
ghost use Rattle.width_bisect.specs.Bounds.{HoldsBy, bounds_of, no_bounds};
ghost use Rattle.width_bisect.specs.Early.{lows_of, sample_mark};

use crate::bounds::Bounds;
use crate::slab_search::{Reaches, walk_down, walk_up};
use crate::stretch::Stretch;
use crate::words::product;
use axis_cells::{Mark, short_scaled_square};
use bern_form::Slab;

/// What the slabs' tests at one sample share: u, n, and the width, which is four times the squared distance from the axis times n.
#[derive(Drop)]
pub struct Sample {
    pub scale: u32,
    pub u: i64,
    pub n: i64,
    pub width: i128,
    ghost scale_small: { scale ≤ scale_limit },
}

impl Reaches for Sample {
    ghost reached = { λ at. is_reached (pos at.scale) at.u at.n };

    /// Whether the point is as high as the slab begins, where it is ahead of the tip.
    #[inline]
    fn reaches(&self, slab: &Slab) -> bool {
        self.squared(slab.lo) <= self.height()
    }
}

impl Sample {
    /// The first sample of a stretch.
    #[inline]
    pub fn first_of(stretch: &Stretch, scale: u32) -> Sample
        requires { scale ≤ scale_limit }
        ensures scale { result.scale ≡ scale }
        ensures u { result.u ≡ at stretch.now.u 0 }
        ensures n { result.n ≡ at stretch.now.n 0 }
        ensures width { result.width ≡ at stretch.now.width 0 }
    {
        Sample {
            scale,
            u: stretch.u[0],
            n: stretch.n[0],
            width: stretch.width[0],
        }
    }

    /// The last sample of a stretch.
    #[inline]
    pub fn last_of(stretch: &Stretch, scale: u32) -> Sample
        requires { scale ≤ scale_limit }
        ensures scale { result.scale ≡ scale }
        ensures u { result.u ≡ at stretch.now.u 2 }
        ensures n { result.n ≡ at stretch.now.n 2 }
        ensures width { result.width ≡ at stretch.now.width 4 }
    {
        Sample {
            scale,
            u: stretch.u[2],
            n: stretch.n[2],
            width: stretch.width[4],
        }
    }

    /// n times the square of a length.
    #[inline]
    fn squared(&self, length: i32) -> i128
        requires { unsigned_abs length ≤ 300000 }
        ensures { result ≡ scaled_square self.now.scale length *ℤ self.now.n }
    {
        product(short_scaled_square(self.scale, length), self.n)
    }

    /// u^2.
    #[inline]
    pub(crate) fn height(&self) -> i128
        ensures { result ≡ self.now.u *ℤ self.now.u }
    {
        product(self.u, self.u)
    }

    /// Whether the point is no higher than the slab ends.
    #[inline]
    fn is_under_top(&self, slab: &Slab) -> bool
        ensures { let at = self.now in result ≡ int_le (at.u *ℤ at.u) (scaled_square at.scale slab.now.hi *ℤ at.n) }
    {
        self.height() <= self.squared(slab.hi)
    }

    /// Whether it is no farther from the axis than the slab is wide.
    #[inline]
    fn is_near(&self, slab: &Slab) -> bool
        ensures { let at = self.now in result ≡ int_le at.width (scaled_square at.scale slab.now.dia *ℤ at.n) }
    {
        self.width <= self.squared(slab.dia)
    }

    /// Whether the slab that the point reaches holds it, where it is ahead of the tip.
    #[inline]
    fn is_within(&self, slab: &Slab) -> bool
        ensures { let at = self.now in result
            ≡ (int_le (at.u *ℤ at.u) (scaled_square at.scale slab.now.hi *ℤ at.n)
            && int_le at.width (scaled_square at.scale slab.now.dia *ℤ at.n)) }
    {
        if !self.is_near(slab) {
            return false;
        }
        self.is_under_top(slab)
    }

    /// The number of the slab above the highest that the point reaches. It is looked for from any number on, best from one near it.
    #[inline]
    pub fn reached(&self, slabs: &[Slab], near: usize) -> usize
        ensures { let at = self.now in TurnsAt (is_reached (pos at.scale) at.u at.n) slabs.now result }
    {
        walk_up(self, slabs, walk_down(self, slabs, near.min(slabs.len())))
    }

    /// What a slab requires of the points at this sample.
    #[inline]
    fn bounds_of(&self, slab: &Slab) -> Bounds
        ensures { result ≡ bounds_of self.now.scale self.now.n slab.now }
    {
        Bounds {
            low: self.squared(slab.lo),
            high: self.squared(slab.hi),
            width: self.squared(slab.dia),
        }
    }

    /// What the slab that lies below the number `reached` requires of the points at this sample: what no point meets, where there is none.
    #[inline]
    pub fn bounds(&self, slabs: &[Slab], reached: usize) -> Bounds
        requires { reached ≤ length slabs.now }
        ensures none { reached ≡ 0 → result ≡ no_bounds }
        ensures slab { (i : ℕ) → reached ≡ i + 1 → result ≡ bounds_of self.now.scale self.now.n (get_or slabs.now i no_slab) }
        ensures held { HoldsBy result self.now.scale self.now.n slabs.now }
    {
        if reached == 0 {
            return Bounds::nowhere();
        }
        self.bounds_of(&slabs[reached - 1])
    }

    /// Whether some of the slabs holds the point that is ahead of the tip: the highest that it reaches decides.
    #[inline]
    pub fn holds(&self, slabs: &[Slab], reached: usize) -> bool
        requires ahead { pos 0 ≤ℤ self.now.u }
        requires rising { IsRising slabs.now }
        requires reached { let at = self.now in TurnsAt (is_reached (pos at.scale) at.u at.n) slabs.now reached }
        ensures { (w : ℤ) → self.now.width ≡ pos 4 *ℤ w
            → result ≡ some_covers (pos self.now.scale) self.now.u self.now.n w slabs.now }
    {
        if reached == 0 {
            return false;
        }
        self.is_within(&slabs[reached - 1])
    }

    /// Whether some of the slabs holds the point at this sample. The highest that it reaches is looked for from any number on, best
    /// from one near it.
    #[inline]
    pub fn is_held(&self, slabs: &[Slab], near: usize) -> bool
        requires { IsRising slabs.now }
        ensures { (w : ℤ) → self.now.width ≡ pos 4 *ℤ w
            → result ≡ some_covers (pos self.now.scale) self.now.u self.now.n w slabs.now }
    {
        if self.u < 0 {
            return false;
        }
        self.holds(slabs, self.reached(slabs, near))
    }

    /// The mark by this sample alone: Possible where some outer slab holds the point, and Removed where some inner one does too. Both
    /// stacks begin at the same heights, so the highest slab that the point reaches has one number in either.
    #[inline(always)]
    pub(crate) fn mark(&self, inner: &[Slab], outer: &[Slab], near: usize) -> Mark
        requires inner { IsRising inner.now }
        requires outer { IsRising outer.now }
        requires lows { lows_of inner.now ≡ lows_of outer.now }
        ensures { let at = self.now in (w : ℤ) → at.width ≡ pos 4 *ℤ w
            → result ≡ sample_mark (some_covers (pos at.scale) at.u at.n w inner.now) (some_covers (pos at.scale) at.u at.n w outer.now) }
    {
        if self.u < 0 {
            return Mark::Clear;
        }
        let reached = self.reached(outer, near);
        if !self.holds(outer, reached) {
            return Mark::Clear;
        }
        if self.holds(inner, reached) {
            return Mark::Removed;
        }
        Mark::Possible
    }
}
