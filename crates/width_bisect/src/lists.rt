ghost use Rattle.std.specs.Prelude.{◌≡◌, ◌≤◌, length, not, true, false, IsTrue};
ghost use Rattle.bern_form.specs.Forms.{all_positive, difference4, lifted, product22, scaled4};
ghost use Rattle.bern_form.specs.Cells.{scaled_square};
ghost use Rattle.bern_form.specs.Sizes.{scale_limit};
ghost use Rattle.cutter_slabs.specs.Rising.{IsRising};
ghost use Rattle.box_bisect.specs.SlabTests.{TurnsAt, TurnsBetween, is_below_by, is_past_by, is_unexcluded_by};

use crate::compare::{all_above, all_below};
use crate::slab_search::Reaches;
use crate::stretch::Stretch;
use axis_cells::short_scaled_square;
use bern_form::Slab;

/// Whether every number is above 0.
#[inline]
fn each_above(numbers: &[i64]) -> bool
    ensures { result ≡ all_positive numbers.now }
{
    numbers.iter().all(|c| *c > 0)
}

/// What the slabs' tests between two samples compare, besides the width: n raised to degree 4, and u^2.
#[derive(Drop)]
pub struct Lists {
    pub scale: u32,
    pub raised: [i64; 5],
    pub height: [i128; 5],
    ghost scale_small: { scale ≤ scale_limit },
}

impl Reaches for Lists {
    ghost reached = { λ l. λ s. not (is_below_by l.scale l.raised l.height s) };

    /// Whether the point isn't below the slab throughout.
    #[inline]
    fn reaches(&self, slab: &Slab) -> bool {
        !all_below(
            &self.height,
            short_scaled_square(self.scale, slab.lo),
            &self.raised,
        )
    }
}

impl Lists {
    /// Of the forms of a stretch at this scale, at most 1024.
    #[inline]
    pub fn of_stretch(stretch: &Stretch, scale: u32) -> Lists
        requires { scale ≤ scale_limit }
        ensures scale { result.scale ≡ scale }
        ensures raised { result.raised ≡ lifted stretch.now.n }
        ensures height { result.height ≡ product22 stretch.now.u stretch.now.u }
    {
        Lists {
            scale,
            raised: stretch.raised(),
            height: stretch.height(),
        }
    }

    /// Whether n raised to degree 4 is above 0 by its coefficients, so that one slab decides.
    #[inline]
    pub fn is_open(&self) -> bool
        ensures { result ≡ all_positive self.now.raised }
    {
        each_above(&self.raised)
    }

    /// Whether the point is beside the slab throughout.
    #[inline]
    fn is_beside(&self, slab: &Slab, width: &[i128; 5]) -> bool
        ensures { let l = self.now in
            result ≡ all_positive (difference4 width.now (scaled4 (scaled_square l.scale slab.now.dia) l.raised)) }
    {
        all_above(
            width,
            short_scaled_square(self.scale, slab.dia),
            &self.raised,
        )
    }

    /// Whether the point is beside the slab throughout, or above it.
    // Kept apart from its callers for the same reason as `all_below`.
    #[inline(never)]
    fn is_past(&self, slab: &Slab, width: &[i128; 5]) -> bool
        ensures { let l = self.now in result ≡ is_past_by l.scale l.raised l.height width.now slab.now }
    {
        if self.is_beside(slab, width) {
            return true;
        }
        all_above(
            &self.height,
            short_scaled_square(self.scale, slab.hi),
            &self.raised,
        )
    }

    /// Whether the point is beside each slab below the number `high` throughout, as it is where it is beside the highest of them: those
    /// below that one are no wider. Where it is below those from `high` on, all are then excluded.
    #[inline]
    pub fn are_beside(&self, slabs: &[Slab], high: usize, width: &[i128; 5]) -> bool
        requires within { high ≤ length slabs.now }
        ensures { let l = self.now in IsTrue result → IsRising slabs.now → all_positive l.raised ≡ true
            → TurnsBetween (λ s. not (is_below_by l.scale l.raised l.height s)) slabs.now 0 high
            → is_unexcluded_by l.scale false l.raised l.height width.now slabs.now ≡ false }
    {
        if high == 0 {
            return true;
        }
        self.is_beside(&slabs[high - 1], width)
    }

    /// Whether some of the slabs is not excluded, by the highest of them that the point isn't below: it is below those above that
    /// one, and those below it are no wider.
    #[inline]
    pub fn leaves_some(&self, slabs: &[Slab], reached: usize, width: &[i128; 5]) -> bool
        requires within { reached ≤ length slabs.now }
        ensures { let l = self.now in IsRising slabs.now → all_positive l.raised ≡ true
            → TurnsAt (λ s. not (is_below_by l.scale l.raised l.height s)) slabs.now reached
            → result ≡ is_unexcluded_by l.scale false l.raised l.height width.now slabs.now }
    {
        if reached == 0 {
            return false;
        }
        !self.is_past(&slabs[reached - 1], width)
    }
}
