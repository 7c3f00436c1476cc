ghost use Rattle.std.specs.Prelude.{◌≡◌, ℕ, ◌+◌, ◌^◌, ◌<◌, ◌≤◌, pos, true, false, IsTrue};
ghost use Rattle.near_points.specs.Lines.{AreBeyond, FitsAfter, is_amid_after, is_held_after};

use crate::axis_offset::{AxisOffset, moved, tilted};
use crate::cylinder_test::CylinderTest;
use crate::ray_step::RayStep;

/// Whether two numbers are both below the least one that is held, or both above the most.
#[inline]
fn are_beyond(least: i64, most: i64, a: i64, b: i64) -> bool
    ensures { IsTrue result → AreBeyond least most a b }
{
    a < least && b < least || most < a && most < b
}

/// Whether the points from one to another are all too low, all too high, or all too far to one side, by these two alone.
#[inline]
pub fn are_all_beyond(
    first: &AxisOffset,
    step: &RayStep,
    test: &CylinderTest,
    l: u32,
    m: u32,
) -> bool
    requires from { FitsAfter first.now step.now (pos l) }
    requires to { FitsAfter first.now step.now (pos m) }
    ensures { IsTrue result → (x : ℕ) → l ≤ x → x ≤ m → is_held_after test.now first.now step.now (pos x) ≡ false }
{
    let low = moved(first.height, l, step.height);
    let high = moved(first.height, m, step.height);
    if are_beyond(test.least, test.most, low, high) {
        return true;
    }
    let left = tilted(first.side, l, step.side);
    let right = tilted(first.side, m, step.side);
    are_beyond(-test.across, test.across, left, right)
}

/// The first point from one on up to another with a height that is held and not too far to either side, or the one after them where
/// there is none.
#[inline]
pub fn first_amid(first: &AxisOffset, step: &RayStep, test: &CylinderTest, l: u32, m: u32) -> u32
    requires order { l ≤ m }
    requires few { m + 1 < 2 ^ 32 }
    requires fits { (x : ℕ) → l ≤ x → x ≤ m → FitsAfter first.now step.now (pos x) }
    ensures from { l ≤ result }
    ensures to { result ≤ m + 1 }
    ensures ahead { (x : ℕ) → l ≤ x → x < result → is_amid_after test.now first.now step.now (pos x) ≡ false }
    ensures there { result ≤ m → is_amid_after test.now first.now step.now (pos result) ≡ true }
{
    let mut height = moved(first.height, l, step.height);
    let mut side = tilted(first.side, l, step.side);
    let mut at = l;
    while at <= m {
        if test.has_place(height, side) {
            return at;
        }
        height += step.height;
        side += step.side;
        at += 1;
    }
    at
}

/// The last such point, where the first one is given.
#[inline]
pub fn last_amid(first: &AxisOffset, step: &RayStep, test: &CylinderTest, l: u32, m: u32) -> u32
    requires order { l ≤ m }
    requires amid { is_amid_after test.now first.now step.now (pos l) ≡ true }
    requires fits { (x : ℕ) → l ≤ x → x ≤ m → FitsAfter first.now step.now (pos x) }
    ensures from { l ≤ result }
    ensures to { result ≤ m }
    ensures behind { (x : ℕ) → result < x → x ≤ m → is_amid_after test.now first.now step.now (pos x) ≡ false }
    ensures there { is_amid_after test.now first.now step.now (pos result) ≡ true }
{
    let mut height = moved(first.height, m, step.height);
    let mut side = tilted(first.side, m, step.side);
    let mut at = m;
    while l < at {
        if test.has_place(height, side) {
            return at;
        }
        height -= step.height;
        side -= step.side;
        at -= 1;
    }
    at
}
