ghost use Rattle.std.specs.Prelude.{◌≡◌, ◌*◌, ◌<◌, ◌≤◌, ◌*ℤ◌, ◌-ℤ◌, ℤ, unsigned_abs};
ghost use Rattle.space.specs.Ranges.{IsWithin, vector_limit};
ghost use Rattle.space.specs.Vectors.{at, cross, difference, dot};

/// The product of component `i` of a vector and component `j` of another.
#[inline]
pub fn product(p: &[i128; 3], i: usize, a: &[i128; 3], j: usize) -> i128
    requires i { i < 3 }
    requires j { j < 3 }
    requires p { unsigned_abs (at p.now i) ≤ vector_limit }
    requires a { unsigned_abs (at a.now j) ≤ vector_limit }
    ensures value { result ≡ at p.now i *ℤ at a.now j }
    ensures small { unsigned_abs result ≤ vector_limit * vector_limit }
{
    p[i] * a[j]
}

/// The scalar product of two vectors.
#[inline]
pub fn dot(p: &[i128; 3], a: &[i128; 3]) -> i128
    requires p { IsWithin vector_limit p.now }
    requires a { IsWithin vector_limit a.now }
    ensures value { result ≡ dot p.now a.now }
    ensures small { unsigned_abs result ≤ 3 * (vector_limit * vector_limit) }
{
    product(p, 0, a, 0) + product(p, 1, a, 1) + product(p, 2, a, 2)
}

/// The component of a cross product that is made of the components `i` and `j`.
#[inline]
fn minor(p: &[i128; 3], a: &[i128; 3], i: usize, j: usize) -> i128
    requires i { i < 3 }
    requires j { j < 3 }
    requires pi { unsigned_abs (at p.now i) ≤ vector_limit }
    requires pj { unsigned_abs (at p.now j) ≤ vector_limit }
    requires ai { unsigned_abs (at a.now i) ≤ vector_limit }
    requires aj { unsigned_abs (at a.now j) ≤ vector_limit }
    ensures value { result ≡ at p.now i *ℤ at a.now j -ℤ at p.now j *ℤ at a.now i }
    ensures small { unsigned_abs result ≤ 2 * (vector_limit * vector_limit) }
{
    product(p, i, a, j) - product(p, j, a, i)
}

/// The cross product of two vectors.
#[inline]
pub fn cross(p: &[i128; 3], a: &[i128; 3]) -> [i128; 3]
    requires p { IsWithin vector_limit p.now }
    requires a { IsWithin vector_limit a.now }
    ensures value { result ≡ cross p.now a.now }
    ensures small { IsWithin (2 * (vector_limit * vector_limit)) result }
{
    [minor(p, a, 1, 2), minor(p, a, 2, 0), minor(p, a, 0, 1)]
}

/// How far apart two ends are along an axis.
#[inline]
fn apart(p: &[i32; 3], q: &[i32; 3], i: usize) -> i128
    requires i { i < 3 }
    requires p { unsigned_abs (at p.now i) ≤ 1000000 }
    requires q { unsigned_abs (at q.now i) ≤ 1000000 }
    ensures value { result ≡ at p.now i -ℤ at q.now i }
    ensures small { unsigned_abs result ≤ 2000000 }
{
    i128::from(p[i]) - i128::from(q[i])
}

/// How far apart two ends are along each axis.
#[inline]
pub fn difference(p: &[i32; 3], q: &[i32; 3]) -> [i128; 3]
    requires p { IsWithin 1000000 p.now }
    requires q { IsWithin 1000000 q.now }
    ensures value { result ≡ difference p.now q.now }
    ensures small { IsWithin vector_limit result }
{
    [apart(p, q, 0), apart(p, q, 1), apart(p, q, 2)]
}
