ghost use Rattle.std.specs.Prelude.{◌≡◌, ◌+◌, ◌*◌, ◌<◌, ◌≤◌, ◌^◌, ◌*ℤ◌, ◌≤ℤ◌, List, ℕ, ℤ, length, pos, true, unsigned_abs};
ghost use Rattle.space.specs.Ranges.{IsWithin, vector_limit};
ghost use Rattle.space.specs.Sweeps.{SweepOf};
ghost use Rattle.space.specs.Vectors.{dot};
ghost use Rattle.bern_form.specs.Between.{is_unexcluded_between};
ghost use Rattle.bern_form.specs.Slab.{SlabSize};
ghost use Rattle.cutter_slabs.specs.Rising.{IsRising};
ghost use Rattle.sweep_boxes.specs.declared.sweep_interval.SweepInterval.{SweepInterval};
ghost use Rattle.sweep_boxes.specs.BandTerms.{AreBandTermsOf, IsHalfWidth, IsStepAt};
ghost use Rattle.sweep_boxes.specs.Held.{IsGrown, IsSpread};
ghost use Rattle.sweep_boxes.specs.Intervals.{IsNearer, middle_offset, offset_from};
ghost use Rattle.sweep_boxes.specs.Limits.{side_component_limit};
ghost use Rattle.sweep_boxes.specs.Lines.{AreBandsOf, IsBandOf, IsHeldPlace};
ghost use Rattle.sweep_boxes.specs.Made.{IsSweepInterval};

use crate::around::short;
use crate::band::Band;
use crate::band_terms::BandTerms;
use crate::cylinder::BANDS;
use crate::cylinder_bounds::CylinderBounds;
use crate::shared::band_terms_of;
use crate::slab_step::{SlabStep, step_at};
use crate::spread::{reach_across, sum};
use crate::sweep_interval::SweepInterval;
use crate::weight::weighted;
use bern_form::Slab;

/// Half of a width, times the scale and the length of the axis.
#[inline]
fn half_of(interval: &SweepInterval, band_terms: &BandTerms, step: &SlabStep) -> i128
    ensures value { (side far : List ℤ) → AreBandTermsOf band_terms.now interval.now side far
        → IsHalfWidth result step.now.widest interval.now }
    ensures some { pos 0 ≤ℤ result }
{
    weighted(interval.scale, step.widest) * band_terms.longest
}

/// How high a point is throughout that is as high as the slabs after a step begin, times the length of the axis.
#[inline]
fn rise_of(interval: &SweepInterval, band_terms: &BandTerms, step: &SlabStep) -> i128
    ensures value { result ≡ (pos interval.now.scale *ℤ step.now.begin) *ℤ band_terms.now.shortest }
    ensures small { unsigned_abs result ≤ 10 ^ 18 }
{
    weighted(interval.scale, step.begin) * band_terms.shortest
}

/// How far from the axis a place of slabs is at most whose half width this is.
#[inline]
fn moment_at(band_terms: &BandTerms, half: i128) -> i128
    requires some { pos 0 ≤ℤ half }
    requires small { half ≤ℤ pos (5 * 10 ^ 16) }
    ensures value { (interval : SweepInterval) (widest : ℤ) (side far : List ℤ) → AreBandTermsOf band_terms.now interval side far
        → IsHalfWidth half widest interval → IsGrown result interval widest far }
    ensures some { pos 0 ≤ℤ result }
    ensures small { unsigned_abs result ≤ 3 * 10 ^ 18 }
{
    half + (band_terms.change + band_terms.bent)
}

/// How far along the side its moment is at most.
fn across_at(band_terms: &BandTerms, half: i128) -> i128
    requires some { pos 0 ≤ℤ half }
    requires small { half ≤ℤ pos (5 * 10 ^ 16) }
    ensures value { (interval : SweepInterval) (widest : ℤ) (side far : List ℤ) → AreBandTermsOf band_terms.now interval side far
        → IsHalfWidth half widest interval → IsSpread result side interval widest far }
    ensures some { pos 0 ≤ℤ result }
{
    sum(
        reach_across(band_terms.square, half, band_terms.third),
        band_terms.side_slack,
    )
}

/// The band below which only the slabs in front of a step are met. Where nothing is known of it, it is one that isn't used.
fn band_at(interval: &SweepInterval, band_terms: &BandTerms, step: &SlabStep, least: i64) -> Band
    ensures { (m : SweepOf) (k S : ℕ) (slabs : List SlabSize) (side far p : List ℤ) → IsSweepInterval interval.now m k S
        → AreBandTermsOf band_terms.now interval.now side far → IsStepAt step.now.begin step.now.widest slabs
        → IsNearer (middle_offset m p k S) far → is_unexcluded_between slabs m p k (k + 1) S ≡ true
        → least ≤ℤ dot (offset_from (pos interval.now.scale) interval.now.tip p) interval.now.axis → IsBandOf result side interval.now p }
{
    let rise = rise_of(interval, band_terms, step);
    let half = half_of(interval, band_terms, step);
    if rise <= 2 * band_terms.height_slack || 50_000_000_000_000_000 < half {
        return Band::unused(least);
    }
    let across = across_at(band_terms, half);
    if 4_000_000_000_000_000_000 < across {
        return Band::unused(least);
    }
    Band {
        height: short(rise - band_terms.height_slack),
        moment: short(moment_at(band_terms, half)),
        across: short(across),
    }
}

/// One of the bands: they are at places of the stack that are equally many slabs apart.
fn band_of(
    interval: &SweepInterval,
    band_terms: &BandTerms,
    slabs: &[Slab],
    least: i64,
    number: usize,
) -> Band
    requires rising { IsRising slabs.now }
    requires several { 2 ≤ length slabs.now }
    requires number { number < 8 }
    ensures { (m : SweepOf) (k S : ℕ) (side far p : List ℤ) → IsSweepInterval interval.now m k S
        → AreBandTermsOf band_terms.now interval.now side far → IsNearer (middle_offset m p k S) far
        → is_unexcluded_between slabs.now m p k (k + 1) S ≡ true
        → least ≤ℤ dot (offset_from (pos interval.now.scale) interval.now.tip p) interval.now.axis → IsBandOf result side interval.now p }
{
    let place = 1 + number * (slabs.len() - 1) / BANDS;
    band_at(interval, band_terms, &step_at(slabs, place), least)
}

/// What is known of the places below some heights, which is nothing if there is only one slab.
pub fn bands_of(
    interval: &SweepInterval,
    slabs: &[Slab],
    bounds: &CylinderBounds,
    side: &[i128; 3],
    far: &[i128; 3],
) -> [Band; BANDS]
    requires rising { IsRising slabs.now }
    requires side { IsWithin side_component_limit side.now }
    requires far { IsWithin vector_limit far.now }
    ensures { (m : SweepOf) (k S : ℕ) (p : List ℤ) → IsSweepInterval interval.now m k S → IsNearer (middle_offset m p k S) far.now
        → is_unexcluded_between slabs.now m p k (k + 1) S ≡ true → IsHeldPlace bounds.now interval.now p
        → AreBandsOf result side.now interval.now p }
{
    let least = short(bounds.least);
    if slabs.len() < 2 {
        return no_bands(least);
    }
    match band_terms_of(interval, side, far) {
        None => no_bands(least),
        Some(band_terms) => [
            band_of(interval, &band_terms, slabs, least, 0),
            band_of(interval, &band_terms, slabs, least, 1),
            band_of(interval, &band_terms, slabs, least, 2),
            band_of(interval, &band_terms, slabs, least, 3),
            band_of(interval, &band_terms, slabs, least, 4),
            band_of(interval, &band_terms, slabs, least, 5),
            band_of(interval, &band_terms, slabs, least, 6),
            band_of(interval, &band_terms, slabs, least, 7),
        ],
    }
}

/// Levels that no place is below of, whose height is at least `least`.
fn no_bands(least: i64) -> [Band; BANDS]
    ensures { (interval : SweepInterval) (side p : List ℤ) → least ≤ℤ dot (offset_from (pos interval.scale) interval.tip p) interval.axis
        → AreBandsOf result side interval p }
{
    [
        Band::unused(least),
        Band::unused(least),
        Band::unused(least),
        Band::unused(least),
        Band::unused(least),
        Band::unused(least),
        Band::unused(least),
        Band::unused(least),
    ]
}
