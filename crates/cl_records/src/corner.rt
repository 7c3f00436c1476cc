ghost use Rattle.std.specs.Prelude.{◌≡◌, ◌<◌, ◌≤ℤ◌, ◌-ℤ◌, ◌*ℤ◌, pos, length, IfSome};
ghost use Rattle.space.specs.Ranges.{IsBetween};
ghost use Rattle.cl_records.specs.Cutters.{counted_radius, exceeds_allowance, is_centre_off, is_corner_large, is_corner_refused, is_off_axis, is_off_tip};
ghost use Rattle.cl_records.specs.Kinds.{cutter_kinds, farthest_centre, largest_corner, widest};
ghost use Rattle.cl_records.specs.Ranges.{AreKinds};

use crate::cutter::{centre_distance, centre_height, corner_radius};

/// How far sizes that should be the same may differ, in micrometres. Sizes in inches with four decimals stay within it.
const ALLOWANCE: i32 = 10;

/// The corner radius that counts: half the diameter where twice the radius is above the diameter.
pub(crate) fn counted_corner(d: i32, r: i32) -> i32
    requires d { pos 1 ≤ℤ d }
    requires r { pos 0 ≤ℤ r }
    ensures radius { result ≡ counted_radius d r }
    ensures least { pos 0 ≤ℤ result }
    ensures most { (pos 2 *ℤ result) ≤ℤ d }
{
    if i64::from(d) < 2 * i64::from(r) {
        d / 2
    } else {
        r
    }
}

/// Whether the corner disagrees with the diameter, or its centre with the corner.
pub(crate) fn is_corner_refused(sizes: &[i32], d: i32, r: i32) -> bool
    requires kinds { AreKinds cutter_kinds sizes.now }
    requires some { 0 < length sizes.now }
    requires d { IsBetween (pos 1) (pos widest) d }
    requires least { pos 0 ≤ℤ r }
    requires most { (pos 2 *ℤ r) ≤ℤ d }
    ensures { result ≡ is_corner_refused sizes.now d r }
{
    is_corner_large(corner_radius(sizes), d) || is_centre_off(sizes, d, r)
}

/// Whether twice the radius is above the diameter by more than the allowance.
fn is_corner_large(r: i32, d: i32) -> bool
    requires r { IsBetween (pos 0) (pos largest_corner) r }
    requires d { IsBetween (pos 1) (pos widest) d }
    ensures { result ≡ is_corner_large r d }
{
    d + ALLOWANCE < 2 * r
}

/// The diameter of the flat bottom.
fn flat_bottom(d: i32, r: i32) -> i32
    requires d { IsBetween (pos 1) (pos widest) d }
    requires least { pos 0 ≤ℤ r }
    requires most { (pos 2 *ℤ r) ≤ℤ d }
    ensures { result ≡ d -ℤ (pos 2 *ℤ r) }
{
    d - 2 * r
}

/// Whether the corner's centre is given elsewhere than the diameter and the radius say.
fn is_centre_off(sizes: &[i32], d: i32, r: i32) -> bool
    requires kinds { AreKinds cutter_kinds sizes.now }
    requires some { 0 < length sizes.now }
    requires d { IsBetween (pos 1) (pos widest) d }
    requires least { pos 0 ≤ℤ r }
    requires most { (pos 2 *ℤ r) ≤ℤ d }
    ensures { result ≡ is_centre_off sizes.now d r }
{
    is_off_axis(centre_distance(sizes), flat_bottom(d, r)) || is_off_tip(centre_height(sizes), r)
}

/// Whether the corner's centre is given at another distance from the axis than half the flat bottom.
fn is_off_axis(e: Option<i32>, flat: i32) -> bool
    requires { IfSome e (IsBetween (pos 0) (pos farthest_centre)) }
    ensures { result ≡ is_off_axis e flat }
{
    match e {
        None => false,
        Some(e) => exceeds_allowance(2 * e, flat),
    }
}

/// Whether the corner's centre is given at another height above the tip than the radius.
fn is_off_tip(f: Option<i32>, r: i32) -> bool
    ensures { result ≡ is_off_tip f r }
{
    match f {
        None => false,
        Some(f) => exceeds_allowance(f, r),
    }
}

/// Whether two sizes differ by more than the allowance.
fn exceeds_allowance(a: i32, b: i32) -> bool
    ensures { result ≡ exceeds_allowance a b }
{
    a.abs_diff(b) > ALLOWANCE as u32
}
