ghost use Rattle.std.specs.Prelude.{◌≡◌, ◌*◌, ◌+◌, ◌<◌, ◌≤◌, ◌^◌, ◌*ℤ◌, ◌+ℤ◌, ◌-ℤ◌, ◌≤ℤ◌, List, ℤ, pos, unsigned_abs};
ghost use Rattle.space.specs.Ranges.{IsWithin, vector_limit};
ghost use Rattle.space.specs.Vectors.{at, cross, dot, sum};
ghost use Rattle.sweep_boxes.specs.Intervals.{IsNearer};

use space::{length_up, product};

/// How far from zero a component of a vector is.
#[inline]
pub fn length_along(v: &[i128; 3], i: usize) -> i128
    requires i { i < 3 }
    requires v { unsigned_abs (at v.now i) ≤ 2 * (vector_limit * vector_limit) }
    ensures { result ≡ pos (unsigned_abs (at v.now i)) }
{
    if v[i] < 0 { -v[i] } else { v[i] }
}

/// How far from zero component `i` of the sum of c and of the cross product of two vectors can be, by how far the components `j`
/// and `k` of these two are from zero.
fn change_along(
    c: &[i128; 3],
    far: &[i128; 3],
    axis_change: &[i128; 3],
    i: usize,
    j: usize,
    k: usize,
) -> i128
    requires i { i < 3 }
    requires j { j < 3 }
    requires k { k < 3 }
    requires c { unsigned_abs (at c.now i) ≤ 2 * (vector_limit * vector_limit) }
    requires far_j { unsigned_abs (at far.now j) ≤ vector_limit }
    requires far_k { unsigned_abs (at far.now k) ≤ vector_limit }
    requires axis_change_j { unsigned_abs (at axis_change.now j) ≤ vector_limit }
    requires axis_change_k { unsigned_abs (at axis_change.now k) ≤ vector_limit }
    ensures value { result
        ≡ (pos (unsigned_abs (at c.now i)) +ℤ at far.now j *ℤ at axis_change.now k) +ℤ at far.now k *ℤ at axis_change.now j }
    ensures small { unsigned_abs result ≤ 4 * (vector_limit * vector_limit) }
{
    length_along(c, i) + product(far, j, axis_change, k) + product(far, k, axis_change, j)
}

/// A length that no sum of c and of the cross product of two vectors has more of, by how far from zero their components are.
pub fn change_limit(c: &[i128; 3], far: &[i128; 3], axis_change: &[i128; 3]) -> i128
    requires c { IsWithin (2 * (vector_limit * vector_limit)) c.now }
    requires far { IsWithin vector_limit far.now }
    requires axis_change { IsWithin vector_limit axis_change.now }
    ensures value { (v e : List ℤ) → IsNearer v far.now → IsNearer e axis_change.now
        → dot (sum c.now (cross v e)) (sum c.now (cross v e)) ≤ℤ (result *ℤ result) }
    ensures some { pos 0 ≤ℤ result }
    ensures small { unsigned_abs result ≤ 10 ^ 18 }
{
    length_up(
        change_along(c, far, axis_change, 0, 1, 2),
        change_along(c, far, axis_change, 1, 2, 0),
        change_along(c, far, axis_change, 2, 0, 1),
    )
}

/// A length that a vector has no more of.
pub fn length_limit(v: &[i128; 3]) -> i128
    requires { IsWithin (2 * (vector_limit * vector_limit)) v.now }
    ensures value { dot v.now v.now ≤ℤ (result *ℤ result) }
    ensures some { pos 0 ≤ℤ result }
    ensures small { unsigned_abs result ≤ 10 ^ 18 }
{
    length_up(length_along(v, 0), length_along(v, 1), length_along(v, 2))
}
