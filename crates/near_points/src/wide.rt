ghost use Rattle.std.specs.Prelude.{◌≡◌, ℕ, ℤ, ◌≤◌, ◌+ℤ◌, ◌*ℤ◌, ◌≤ℤ◌, pos, false, unsigned_abs, IsTrue};
ghost use Rattle.near_points.specs.Limits.{moment_limit};
ghost use Rattle.near_points.specs.Lines.{FitsAfter, IsLeastSize, is_narrow_after, second_at, third_at};

use crate::axis_offset::AxisOffset;
use crate::cylinder_test::CylinderTest;
use crate::ray_step::RayStep;

/// How far from zero whatever lies between two numbers is at the least: not at all where zero does.
#[inline]
fn least_size(a: i64, b: i64) -> i64
    requires a { unsigned_abs a ≤ moment_limit }
    requires b { unsigned_abs b ≤ moment_limit }
    ensures least { IsLeastSize a b result }
    ensures most { (r : ℤ) → IsLeastSize a b r → r ≤ℤ result }
    ensures small { unsigned_abs result ≤ moment_limit }
{
    let low = a.min(b);
    let high = a.max(b);
    if 0 < low {
        low
    } else if high < 0 {
        -high
    } else {
        0
    }
}

/// Whether the moments of all points from one to another are too long, by those of the two alone: each component of a moment is linear in
/// the index.
#[inline]
pub fn are_all_wide(first: &AxisOffset, step: &RayStep, test: &CylinderTest, l: u32, m: u32) -> bool
    requires from { FitsAfter first.now step.now (pos l) }
    requires to { FitsAfter first.now step.now (pos m) }
    ensures wide { IsTrue result → (x : ℕ) → l ≤ x → x ≤ m → is_narrow_after test.now first.now step.now (pos x) ≡ false }
    // Where it says no, the moments that the two allow aren't too long.
    ensures near { result ≡ false → (second third : ℤ)
        → IsLeastSize (second_at first.now step.now (pos l)) (second_at first.now step.now (pos m)) second
        → IsLeastSize (third_at first.now step.now (pos l)) (third_at first.now step.now (pos m)) third
        → ((first.now.along *ℤ first.now.along +ℤ second *ℤ second) +ℤ third *ℤ third) ≤ℤ test.now.square }
{
    let low = step.after(first, l);
    let high = step.after(first, m);
    let nearest = AxisOffset {
        along: first.along,
        second: least_size(low.second, high.second),
        third: least_size(low.third, high.third),
        side: 0,
        height: 0,
    };
    !test.has_width(nearest.width())
}
