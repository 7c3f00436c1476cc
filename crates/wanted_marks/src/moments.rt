ghost use Rattle.std.specs.Prelude.{◌≡◌, ◌*◌, ◌≤◌, pos, ◌+ℤ◌, ◌*ℤ◌, unsigned_abs};
ghost use Rattle.space.specs.Ranges.{IsWithin};
ghost use Rattle.bern_form.specs.Forms.{scaled4};
ghost use Rattle.bern_form.specs.Sizes.{IsBounded2, axis_limit, offset_limit};
ghost use Rattle.moment_forms.specs.Moments.{vector_product};
ghost use Rattle.moment_forms.specs.Sizes.{moments_limit};
ghost use Rattle.wanted_marks.specs.Ways.{scaled_vector};
ghost use Rattle.wanted_marks.specs.Widths.{moved3};

use moment_forms::Moments;

/// A component of a coefficient, or a coefficient of u, j steps on. The parts may be larger than what fits: where the whole fits,
/// wrapping gives back the exact sum.
#[inline]
pub fn linear(a: i64, b: i64, j: u32) -> i64
    requires { unsigned_abs (a +ℤ pos j *ℤ b) ≤ 2 * moments_limit }
    ensures { result ≡ a +ℤ pos j *ℤ b }
{
    i64::from(j).wrapping_mul(b).wrapping_add(a)
}

/// A coefficient that grows by another one with each step, j steps on.
#[inline]
fn vector_moved(a: &[i64; 3], b: &[i64; 3], j: u32) -> [i64; 3]
    requires { IsWithin moments_limit (moved3 a.now b.now (pos j)) }
    ensures value { result ≡ moved3 a.now b.now (pos j) }
    ensures small { IsWithin moments_limit result }
{
    [
        linear(a[0], b[0], j),
        linear(a[1], b[1], j),
        linear(a[2], b[2], j),
    ]
}

/// u of the point j steps on, where that of a point grows by another form with each step.
pub fn heights_moved(a: &[i64; 3], b: &[i64; 3], j: u32) -> [i64; 3]
    requires { IsBounded2 (3 * (offset_limit * axis_limit)) (moved3 a.now b.now (pos j)) }
    ensures { result ≡ moved3 a.now b.now (pos j) }
{
    [
        linear(a[0], b[0], j),
        linear(a[1], b[1], j),
        linear(a[2], b[2], j),
    ]
}

/// The moment of the point j steps on, where that of a point grows by another one with each step.
#[inline]
pub fn moved(x: &Moments, side: &Moments, j: u32) -> Moments
    requires start { IsWithin moments_limit (moved3 x.now.start side.now.start (pos j)) }
    requires middle { IsWithin moments_limit (moved3 x.now.middle side.now.middle (pos j)) }
    requires end { IsWithin moments_limit (moved3 x.now.end side.now.end (pos j)) }
    ensures start { result.start ≡ moved3 x.now.start side.now.start (pos j) }
    ensures middle { result.middle ≡ moved3 x.now.middle side.now.middle (pos j) }
    ensures end { result.end ≡ moved3 x.now.end side.now.end (pos j) }
{
    Moments {
        start: vector_moved(&x.start, &side.start, j),
        middle: vector_moved(&x.middle, &side.middle, j),
        end: vector_moved(&x.end, &side.end, j),
    }
}

/// A component of a coefficient, or a coefficient of u, taken k times.
#[inline]
fn taken(b: i64, k: u32) -> i64
    requires { unsigned_abs (pos k *ℤ b) ≤ 2 * moments_limit }
    ensures { result ≡ pos k *ℤ b }
{
    linear(0, b, k)
}

/// A coefficient taken k times.
#[inline]
fn vector_times(b: &[i64; 3], k: u32) -> [i64; 3]
    requires { IsWithin moments_limit (scaled_vector (pos k) b.now) }
    ensures value { result ≡ scaled_vector (pos k) b.now }
    ensures small { IsWithin moments_limit result }
{
    [taken(b[0], k), taken(b[1], k), taken(b[2], k)]
}

/// What k steps add to u, where one adds a form.
pub fn heights_times(b: &[i64; 3], k: u32) -> [i64; 3]
    requires { IsBounded2 (3 * (offset_limit * axis_limit)) (scaled_vector (pos k) b.now) }
    ensures { result ≡ scaled_vector (pos k) b.now }
{
    [taken(b[0], k), taken(b[1], k), taken(b[2], k)]
}

/// What k steps add to a moment, where one adds another one.
#[inline]
pub fn times(x: &Moments, k: u32) -> Moments
    requires start { IsWithin moments_limit (scaled_vector (pos k) x.now.start) }
    requires middle { IsWithin moments_limit (scaled_vector (pos k) x.now.middle) }
    requires end { IsWithin moments_limit (scaled_vector (pos k) x.now.end) }
    ensures start { result.start ≡ scaled_vector (pos k) x.now.start }
    ensures middle { result.middle ≡ scaled_vector (pos k) x.now.middle }
    ensures end { result.end ≡ scaled_vector (pos k) x.now.end }
{
    Moments {
        start: vector_times(&x.start, k),
        middle: vector_times(&x.middle, k),
        end: vector_times(&x.end, k),
    }
}

/// Eight times a coefficient of degree 4.
#[inline]
fn eight(x: i128) -> i128
    requires { unsigned_abs x ≤ 9 * (moments_limit * moments_limit) }
    ensures { result ≡ pos 8 *ℤ x }
{
    8 * x
}

/// Eight times the scalar product of two moments, of degree 4.
#[inline]
pub fn eight_products(x: &Moments, y: &Moments) -> [i128; 5]
    ensures { let x = x.now in let y = y.now in
        result ≡ scaled4 (pos 8) (vector_product x.start x.middle x.end y.start y.middle y.end) }
{
    [
        eight(x.times(y, 0)),
        eight(x.times(y, 1)),
        eight(x.times(y, 2)),
        eight(x.times(y, 3)),
        eight(x.times(y, 4)),
    ]
}
