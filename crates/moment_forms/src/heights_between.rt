ghost use Rattle.std.specs.Prelude.{◌≡◌, ◌*◌, ◌≤◌, ◌+ℤ◌, unsigned_abs};
ghost use Rattle.space.specs.Ranges.{IsWithin};
ghost use Rattle.bern_form.specs.Cells.{dot_on_cell};
ghost use Rattle.bern_form.specs.Sizes.{axis_limit, offset_limit};
ghost use Rattle.moment_forms.specs.Sizes.{part_limit};

use crate::moments::height;

/// The sum of two heights.
#[inline]
pub fn total(x: i64, y: i64) -> i64
    requires x { unsigned_abs x ≤ 3 * part_limit }
    requires y { unsigned_abs y ≤ 3 * part_limit }
    ensures { result ≡ x +ℤ y }
{
    x + y
}

/// The scalar product of two vectors, from their values p and a at the first sample and q and c at the last. It fits 64 bits.
#[inline]
pub fn heights(p: &[i64; 3], q: &[i64; 3], a: &[i64; 3], c: &[i64; 3]) -> [i64; 3]
    requires p { IsWithin offset_limit p.now }
    requires q { IsWithin offset_limit q.now }
    requires a { IsWithin axis_limit a.now }
    requires c { IsWithin axis_limit c.now }
    ensures { result ≡ dot_on_cell p.now q.now a.now c.now }
{
    let first = height(p, a);
    let middle = total(height(p, c), height(q, a));
    let last = height(q, c);
    [first, middle, last]
}
