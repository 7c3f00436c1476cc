ghost use Rattle.std.specs.Prelude.{◌≡◌, ◌+◌, ◌*◌, ◌≤◌, ◌*ℤ◌, int_lt, length, pos, unsigned_abs, true, false, not};
ghost use Rattle.bern_form.specs.Forms.{all_negative, all_positive, difference4, lifted, product22, scaled4};
ghost use Rattle.bern_form.specs.Cells.{scaled_square};
ghost use Rattle.bern_form.specs.Sizes.{IsBounded4, axis_limit, length_limit, offset_limit, scale_limit};
ghost use Rattle.cutter_slabs.specs.Rising.{IsRising};
ghost use Rattle.box_bisect.specs.SlabTests.{is_below_by, is_excluded_by, is_past_by, is_unexcluded_by, width_of};

use crate::compare::{Side, are_on};
use crate::slab_search::{Reaches, first_unreached};
use crate::stretch::Stretch;
use axis_cells::scaled_square;
use bern_form::{Form4, Slab, lift24, minus4, scale4, times22};
use std::sync::ledger::Ledger;
use vf_steps::Steps;

/// What the slabs' tests between two samples share: whether u is below 0 throughout, n raised to degree 4, u^2, and
/// 4 (d n - u^2), which is four times the squared distance from the axis times n.
#[derive(Drop)]
pub struct Limits {
    pub scale: u32,
    pub is_behind: bool,
    pub raised: Form4,
    pub height: Form4,
    pub width: Form4,
    ghost scale_small: { scale ≤ scale_limit },
    ghost raised_small: { IsBounded4 (18 * (axis_limit * axis_limit)) raised.c },
}

impl Reaches for Limits {
    ghost reached = { λ l. λ s. not (is_below_by l.scale l.raised.c l.height.c s) };

    /// Whether the point isn't below the slab throughout.
    #[inline]
    fn reaches(&self, slab: &Slab) -> bool {
        !are_on(
            Side::Below,
            &self.height,
            scaled_square(self.scale, slab.lo),
            &self.raised,
        )
    }
}

impl Limits {
    /// Of the forms of a stretch at this scale, at most 1024.
    pub fn of_stretch(stretch: &Stretch, scale: u32) -> Limits
        requires { scale ≤ scale_limit }
        ensures scale { result.scale ≡ scale }
        ensures behind { result.is_behind ≡ all_negative stretch.now.u.c }
        ensures raised { result.raised.c ≡ lifted stretch.now.n.c }
        ensures height { result.height.c ≡ product22 stretch.now.u.c stretch.now.u.c }
        ensures width { result.width.c ≡ width_of stretch.now.u.c stretch.now.n.c stretch.now.d.c }
    {
        let height = times22(&stretch.u, &stretch.u);
        let spread = minus4(&times22(&stretch.d, &stretch.n), &height);
        Limits {
            scale,
            is_behind: stretch.u.all_negative(),
            raised: lift24(&stretch.n),
            height,
            width: scale4(&spread, 4),
        }
    }

    /// Whether the point is above the slab throughout, or beside it.
    #[inline]
    fn is_past(&self, slab: &Slab) -> bool
        ensures { let l = self.now in result ≡ is_past_by l.scale l.raised.c l.height.c l.width.c slab.now }
    {
        if are_on(
            Side::Above,
            &self.height,
            scaled_square(self.scale, slab.hi),
            &self.raised,
        ) {
            return true;
        }
        are_on(
            Side::Above,
            &self.width,
            scaled_square(self.scale, slab.dia),
            &self.raised,
        )
    }

    /// Whether the slab is excluded between the two samples: the point is behind the tip throughout, or below the slab, or above
    /// it, or beside it.
    fn excludes(&self, slab: &Slab) -> bool
        ensures { let l = self.now in result ≡ is_excluded_by l.scale l.is_behind l.raised.c l.height.c l.width.c slab.now }
    {
        if self.is_behind {
            return true;
        }
        if !self.reaches(slab) {
            return true;
        }
        self.is_past(slab)
    }

    /// Whether some of any slabs is not excluded; each slab that is tested is a step.
    fn leaves_some_of<L: Ledger>(&self, slabs: &[Slab], steps: &mut Steps<L>) -> bool
        ensures left { let l = self.now in result ≡ is_unexcluded_by l.scale l.is_behind l.raised.c l.height.c l.width.c slabs.now }
        ensures cost { steps.new ≤ steps.old + length slabs.now }
    {
        for slab in slabs {
            steps.tick();
            if !self.excludes(slab) {
                return true;
            }
        }
        false
    }

    /// The same of slabs that rise, where n is above 0 by its coefficients. The highest slab that the point isn't below decides: it
    /// is below those above that, and above or beside those below where it is above or beside that one.
    fn leaves_some_by_one<L: Ledger>(&self, slabs: &[Slab], steps: &mut Steps<L>) -> bool
        requires ahead { self.now.is_behind ≡ false }
        requires positive { all_positive self.now.raised.c ≡ true }
        requires rising { IsRising slabs.now }
        ensures left { let l = self.now in result ≡ is_unexcluded_by l.scale l.is_behind l.raised.c l.height.c l.width.c slabs.now }
        ensures cost { steps.new ≤ steps.old + length slabs.now }
    {
        let reached = first_unreached(self, slabs, 0, slabs.len(), steps);
        if reached == 0 {
            return false;
        }
        !self.is_past(&slabs[reached - 1])
    }

    /// Whether some of the slabs is not excluded; each slab that is tested is a step.
    pub fn leaves_some<L: Ledger>(&self, slabs: &[Slab], steps: &mut Steps<L>) -> bool
        requires { IsRising slabs.now }
        ensures left { let l = self.now in result ≡ is_unexcluded_by l.scale l.is_behind l.raised.c l.height.c l.width.c slabs.now }
        ensures cost { steps.new ≤ steps.old + length slabs.now }
    {
        if self.is_behind {
            return false;
        }
        if !self.raised.all_positive() {
            return self.leaves_some_of(slabs, steps);
        }
        self.leaves_some_by_one(slabs, steps)
    }
}
