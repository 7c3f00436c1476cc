ghost use Rattle.std.specs.Prelude.{◌≡◌, ℕ, ◌+◌, ◌^◌, ◌<◌, ◌≤◌, ◌<ℤ◌, ◌≤ℤ◌, ◌⊎◌, pos, true, false, int_le, IsTrue};
ghost use Rattle.vf_spans.specs.Members.{in_range};
ghost use Rattle.near_points.specs.Lines.{FitsAfter, is_held_after, is_narrow_after};
ghost use Rattle.near_points.specs.Trimmed.{IsLeftOut, IsPassed, IsPassedAfter};

use crate::axis_offset::AxisOffset;
use crate::cylinder_test::CylinderTest;
use crate::ray_step::RayStep;
use crate::scan::{are_all_beyond, first_amid, last_amid};
use crate::trim::is_out;
use crate::wide::are_all_wide;
use sweep_boxes::{BANDS, Band};

/// Whether a square of a moment is too large, and grows from there.
#[inline]
fn is_leaving(test: &CylinderTest, width: i128, growth: i128) -> bool
    ensures far { IsTrue result → test.now.square <ℤ width }
    ensures growing { IsTrue result → pos 0 ≤ℤ growth }
{
    test.square < width && 0 <= growth
}

/// Whether a point's moment is too long, by its square, or a band is found that leaves it out.
#[inline]
fn is_passed(
    test: &CylinderTest,
    bands: &[Band; BANDS],
    height: i64,
    side: i64,
    width: i128,
) -> bool
    ensures passed { IsTrue result → IsPassed test.now bands.now height side width }
    ensures kept { result ≡ false → int_le width test.now.square ≡ true }
{
    if !test.has_width(width) {
        return true;
    }
    is_out(bands, height, side, width)
}

/// The first point from one on up to another whose moment isn't too long and that isn't found to be left out by a band, or the one after
/// them where there is none. Where the moment is too long and no shorter at the next point, there is none from there on.
#[inline]
fn first_kept(
    first: &AxisOffset,
    step: &RayStep,
    test: &CylinderTest,
    bands: &[Band; BANDS],
    l: u32,
    m: u32,
) -> u32
    requires order { l ≤ m }
    requires few { m + 1 < 2 ^ 32 }
    requires fits { (x : ℕ) → l ≤ x → x ≤ m → FitsAfter first.now step.now (pos x) }
    ensures from { l ≤ result }
    ensures to { result ≤ m + 1 }
    ensures ahead { (x : ℕ) → l ≤ x → x ≤ m → x < result → IsPassedAfter test.now bands.now first.now step.now (pos x) }
    ensures there { result ≤ m → is_narrow_after test.now first.now step.now (pos result) ≡ true }
{
    let from = step.after(first, l);
    let mut height = from.height;
    let mut side = from.side;
    let mut width = from.width();
    let mut growth = step.curve + step.slope(&from);
    let bend = 2 * step.curve;
    let mut at = l;
    while at <= m {
        if !is_passed(test, bands, height, side, width) {
            return at;
        }
        if is_leaving(test, width, growth) {
            return m + 1;
        }
        height += step.height;
        side += step.side;
        width += growth;
        growth += bend;
        at += 1;
    }
    at
}

/// The last such point, where one is given whose moment isn't too long: that one where there is none after it.
#[inline]
fn last_kept(
    first: &AxisOffset,
    step: &RayStep,
    test: &CylinderTest,
    bands: &[Band; BANDS],
    l: u32,
    m: u32,
) -> u32
    requires order { l ≤ m }
    requires narrow { is_narrow_after test.now first.now step.now (pos l) ≡ true }
    requires fits { (x : ℕ) → l ≤ x → x ≤ m → FitsAfter first.now step.now (pos x) }
    ensures from { l ≤ result }
    ensures to { result ≤ m }
    ensures behind { (x : ℕ) → result < x → x ≤ m → IsPassedAfter test.now bands.now first.now step.now (pos x) }
    ensures there { is_narrow_after test.now first.now step.now (pos result) ≡ true }
{
    let to = step.after(first, m);
    let mut height = to.height;
    let mut side = to.side;
    let mut width = to.width();
    let mut rise = step.curve - step.slope(&to);
    let bend = 2 * step.curve;
    let mut at = m;
    while l < at {
        if !is_passed(test, bands, height, side, width) {
            return at;
        }
        height -= step.height;
        side -= step.side;
        width += rise;
        rise += bend;
        at -= 1;
    }
    at
}

/// A range of the points from one to another, as its first and the one after its last: each of them is held, and of the others each is
/// not, or a band leaves it out.
#[inline]
pub fn kept_between(
    first: &AxisOffset,
    step: &RayStep,
    test: &CylinderTest,
    bands: &[Band; BANDS],
    l: u32,
    m: u32,
) -> (u32, u32)
    requires order { l ≤ m }
    requires few { m + 1 < 2 ^ 32 }
    requires fits { (x : ℕ) → l ≤ x → x ≤ m → FitsAfter first.now step.now (pos x) }
    ensures from { l ≤ result.0 }
    ensures order { result.0 ≤ result.1 }
    ensures to { result.1 ≤ m + 1 }
    ensures held { (x : ℕ) → l ≤ x → x ≤ m → in_range x result ≡ true → is_held_after test.now first.now step.now (pos x) ≡ true }
    ensures out { (x : ℕ) → l ≤ x → x ≤ m → in_range x result ≡ false
        → (is_held_after test.now first.now step.now (pos x) ≡ false) ⊎ IsLeftOut bands.now first.now step.now (pos x) }
{
    if are_all_beyond(first, step, test, l, m) {
        return (l, l);
    }
    if are_all_wide(first, step, test, l, m) {
        return (l, l);
    }
    let bottom = first_amid(first, step, test, l, m);
    if m < bottom {
        return (l, l);
    }
    let top = last_amid(first, step, test, bottom, m);
    let from = first_kept(first, step, test, bands, bottom, top);
    if top < from {
        return (l, l);
    }
    let to = last_kept(first, step, test, bands, from, top);
    (from, to + 1)
}
