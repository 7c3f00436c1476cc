ghost use Rattle.std.specs.Prelude.{◌≡◌, ◌*◌, ◌≤◌, ◌≤ℤ◌, pos, unsigned_abs, All};
ghost use Rattle.bern_form.specs.Forms.{IsSmall, lifted};
ghost use Rattle.bern_form.specs.Sizes.{IsBounded2, axis_limit, scale_limit};
ghost use Rattle.axis_cells.specs.Exclusion.{squared};
ghost use Rattle.cutter_slabs.specs.Rising.{IsRising};
ghost use Rattle.wanted_marks.specs.Limits.{IsNoWider, all_not_below_zero, not_below_zero};

use axis_cells::scaled_square;
use bern_form::{Form2, Slab, lift24, scale2};

/// The diameter of a slab.
#[inline]
pub fn diameter_of(slab: &Slab) -> i32
    ensures value { result ≡ slab.now.dia }
    ensures not_negative { pos 0 ≤ℤ result }
    ensures few { result ≤ℤ pos 200000 }
{
    slab.dia
}

/// The greatest diameter of slabs that rise, which is that of the highest: 0 where there are none.
pub fn greatest_diameter(slabs: &[Slab]) -> i32
    requires { IsRising slabs.now }
    ensures not_negative { pos 0 ≤ℤ result }
    ensures few { result ≤ℤ pos 200000 }
    ensures greatest { All (IsNoWider result) slabs.now }
{
    if slabs.is_empty() {
        return 0;
    }
    diameter_of(&slabs[slabs.len() - 1])
}

/// The number, or 0 where it is below.
#[inline]
fn not_below_zero(z: i128) -> i128
    ensures { result ≡ not_below_zero z }
{
    if z < 0 { 0 } else { z }
}

/// The coefficients of dia^2 n raised to degree 4, and 0 where one is below.
pub fn limits_of(n: &Form2, scale: u32, diameter: i32) -> [i128; 5]
    requires n { IsBounded2 (3 * (axis_limit * axis_limit)) n.now.c }
    requires scale { scale ≤ scale_limit }
    requires not_negative { pos 0 ≤ℤ diameter }
    requires few { diameter ≤ℤ pos 200000 }
    ensures value { result ≡ all_not_below_zero (squared (pos scale) diameter n.now.c) }
    ensures small { All IsSmall result }
{
    let [a, b, c, d, e] = lift24(&scale2(n, scaled_square(scale, diameter))).c;
    [
        not_below_zero(a),
        not_below_zero(b),
        not_below_zero(c),
        not_below_zero(d),
        not_below_zero(e),
    ]
}

/// The number in 64 bits, or 0 where it is below.
#[inline]
fn narrow_not_below_zero(z: i128) -> i64
    requires { unsigned_abs z ≤ 18 * (axis_limit * axis_limit) }
    ensures { result ≡ not_below_zero z }
{
    if z < 0 { 0 } else { z as i64 }
}

/// The coefficients of n raised to degree 4, and 0 where one is below: what the square of a slab's scaled diameter is taken times in
/// its limits. They fit 64 bits.
pub fn raised_of(n: &Form2) -> [i64; 5]
    requires { IsBounded2 (3 * (axis_limit * axis_limit)) n.now.c }
    ensures { result ≡ all_not_below_zero (lifted n.now.c) }
{
    let [a, b, c, d, e] = lift24(n).c;
    [
        narrow_not_below_zero(a),
        narrow_not_below_zero(b),
        narrow_not_below_zero(c),
        narrow_not_below_zero(d),
        narrow_not_below_zero(e),
    ]
}
