ghost use Rattle.std.specs.Prelude.{◌≡◌, ℕ, ◌<◌, ◌≤◌, ◌-◌, pos, ◌*ℤ◌, int_lt, true, IsTrue, All};
ghost use Rattle.space.specs.Vectors.{at};
ghost use Rattle.bern_form.specs.Forms.{IsSmall, all_negative, all_positive, difference4};
ghost use Rattle.wanted_marks.specs.Lines.{FitsAt, bend_over, coefficient_at, heights_at, width_at};

use crate::line::Line;

/// Whether each coefficient of u is below 0 at all points from the one l steps on to the one m steps on. Each is linear in the
/// number of steps, so both ends decide.
#[inline]
pub fn are_behind(line: &Line, l: u32, m: u32) -> bool
    requires first { FitsAt line.now (pos l) }
    requires last { FitsAt line.now (pos m) }
    ensures { IsTrue result → (x : ℕ) → l ≤ x → x ≤ m → all_negative (heights_at line.now (pos x)) ≡ true }
{
    if !line.is_behind(l, line.last_height(l)) {
        return false;
    }
    line.is_behind(m, line.last_height(m))
}

/// Whether a coefficient of the width form is above its limit at all these points. It is quadratic in the number of steps, so on
/// the stretch it is a form of degree 2 whose outer coefficients are what it is at both ends; the middle one is the sum of these,
/// less what it bends by. It is above the limit where the outer ones are, and the middle one is above the limit twice.
#[inline]
fn is_above_on(line: &Line, k: usize, l: u32, m: u32, limit: i128) -> bool
    requires place { k < 5 }
    requires order { l ≤ m }
    requires few { m - l < 64 }
    requires first { IsSmall (coefficient_at line.now k (pos l)) }
    requires last { IsSmall (coefficient_at line.now k (pos m)) }
    requires bend { IsSmall ((pos (m - l) *ℤ pos (m - l)) *ℤ at line.now.second.c k) }
    requires limit { IsSmall limit }
    ensures { IsTrue result → (x : ℕ) → l ≤ x → x ≤ m → int_lt limit (coefficient_at line.now k (pos x)) ≡ true }
{
    let first = line.width(k, l);
    if first <= limit {
        return false;
    }
    let last = line.width(k, m);
    if last <= limit {
        return false;
    }
    let steps = m - l;
    i128::from(steps * steps) * line.second.c[k] < (first - limit) + (last - limit)
}

/// Whether each coefficient of the width form is above its limit at all these points. The last one is tested first, for it is
/// the one that most often isn't.
pub fn are_beside(line: &Line, l: u32, m: u32, limits: &[i128; 5]) -> bool
    requires order { l ≤ m }
    requires few { m - l < 64 }
    requires first { FitsAt line.now (pos l) }
    requires last { FitsAt line.now (pos m) }
    requires bend { All IsSmall (bend_over line.now (pos (m - l))) }
    requires limits { All IsSmall limits.now }
    ensures { IsTrue result → (x : ℕ) → l ≤ x → x ≤ m
        → all_positive (difference4 (width_at line.now (pos x)) limits.now) ≡ true }
{
    for k in 0..5 {
        if !is_above_on(line, 4 - k, l, m, limits[4 - k]) {
            return false;
        }
    }
    true
}
