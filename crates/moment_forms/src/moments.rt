ghost use Rattle.std.specs.Prelude.{◌≡◌, ◌*◌, ◌≤◌, ◌<◌, pos, ◌+ℤ◌, ◌*ℤ◌, ◌-ℤ◌, unsigned_abs};
ghost use Rattle.space.specs.Ranges.{IsWithin};
ghost use Rattle.space.specs.Vectors.{at, dot};
ghost use Rattle.bern_form.specs.Forms.{scaled4};
ghost use Rattle.bern_form.specs.Sizes.{axis_limit, offset_limit};
ghost use Rattle.moment_forms.specs.Moments.{middle_moment, moment, vector_product, vector_sum};
ghost use Rattle.moment_forms.specs.Sizes.{moments_limit, part_limit};

/// A product of a component of an offset and one of an axis.
#[inline]
fn part(p: i64, a: i64) -> i64
    requires p { unsigned_abs p ≤ offset_limit }
    requires a { unsigned_abs a ≤ axis_limit }
    ensures value { result ≡ p *ℤ a }
    ensures small { unsigned_abs result ≤ part_limit }
{
    p * a
}

/// The sum of three of them.
#[inline]
fn add(x: i64, y: i64, z: i64) -> i64
    requires x { unsigned_abs x ≤ part_limit }
    requires y { unsigned_abs y ≤ part_limit }
    requires z { unsigned_abs z ≤ part_limit }
    ensures value { result ≡ (x +ℤ y) +ℤ z }
    ensures small { unsigned_abs result ≤ 3 * part_limit }
{
    x + y + z
}

/// The scalar product of an offset and an axis.
#[inline]
pub fn height(p: &[i64; 3], a: &[i64; 3]) -> i64
    requires p { IsWithin offset_limit p.now }
    requires a { IsWithin axis_limit a.now }
    ensures value { result ≡ dot p.now a.now }
    ensures small { unsigned_abs result ≤ 3 * part_limit }
{
    add(part(p[0], a[0]), part(p[1], a[1]), part(p[2], a[2]))
}

/// A component of a moment.
#[inline]
fn minor(p: i64, q: i64, a: i64, b: i64) -> i64
    requires p { unsigned_abs p ≤ offset_limit }
    requires q { unsigned_abs q ≤ offset_limit }
    requires a { unsigned_abs a ≤ axis_limit }
    requires b { unsigned_abs b ≤ axis_limit }
    ensures value { result ≡ p *ℤ b -ℤ q *ℤ a }
    ensures small { unsigned_abs result ≤ 2 * part_limit }
{
    part(p, b) - part(q, a)
}

/// The moment of an offset about an axis.
#[inline]
pub fn moment(p: &[i64; 3], a: &[i64; 3]) -> [i64; 3]
    requires p { IsWithin offset_limit p.now }
    requires a { IsWithin axis_limit a.now }
    ensures value { result ≡ moment p.now a.now }
    ensures small { IsWithin (2 * part_limit) result }
{
    [
        minor(p[1], p[2], a[1], a[2]),
        minor(p[2], p[0], a[2], a[0]),
        minor(p[0], p[1], a[0], a[1]),
    ]
}

/// The sum of two components of moments.
#[inline]
fn plus(x: i64, y: i64) -> i64
    requires x { unsigned_abs x ≤ 2 * part_limit }
    requires y { unsigned_abs y ≤ 2 * part_limit }
    ensures value { result ≡ x +ℤ y }
    ensures small { unsigned_abs result ≤ moments_limit }
{
    x + y
}

/// The sum of two moments.
#[inline]
fn sum(x: &[i64; 3], y: &[i64; 3]) -> [i64; 3]
    requires x { IsWithin (2 * part_limit) x.now }
    requires y { IsWithin (2 * part_limit) y.now }
    ensures value { result ≡ vector_sum x.now y.now }
    ensures small { IsWithin moments_limit result }
{
    [plus(x[0], y[0]), plus(x[1], y[1]), plus(x[2], y[2])]
}

/// The middle coefficient of a moment between two samples, by the offsets p and q and the axes a and c there.
#[inline]
fn amid(p: &[i64; 3], q: &[i64; 3], a: &[i64; 3], c: &[i64; 3]) -> [i64; 3]
    requires p { IsWithin offset_limit p.now }
    requires q { IsWithin offset_limit q.now }
    requires a { IsWithin axis_limit a.now }
    requires c { IsWithin axis_limit c.now }
    ensures value { result ≡ middle_moment p.now q.now a.now c.now }
    ensures small { IsWithin moments_limit result }
{
    sum(&moment(p, c), &moment(q, a))
}

/// A product of components of two moments.
#[inline]
fn square(x: i64, y: i64) -> i128
    requires x { unsigned_abs x ≤ moments_limit }
    requires y { unsigned_abs y ≤ moments_limit }
    ensures value { result ≡ x *ℤ y }
    ensures small { unsigned_abs result ≤ moments_limit * moments_limit }
{
    i128::from(x) * i128::from(y)
}

/// The sum of three of them.
#[inline]
fn add_squares(x: i128, y: i128, z: i128) -> i128
    requires x { unsigned_abs x ≤ moments_limit * moments_limit }
    requires y { unsigned_abs y ≤ moments_limit * moments_limit }
    requires z { unsigned_abs z ≤ moments_limit * moments_limit }
    ensures value { result ≡ (x +ℤ y) +ℤ z }
    ensures small { unsigned_abs result ≤ 3 * (moments_limit * moments_limit) }
{
    x + y + z
}

/// The scalar product of two moments.
#[inline]
pub fn product(x: &[i64; 3], y: &[i64; 3]) -> i128
    requires x { IsWithin moments_limit x.now }
    requires y { IsWithin moments_limit y.now }
    ensures value { result ≡ dot x.now y.now }
    ensures small { unsigned_abs result ≤ 3 * (moments_limit * moments_limit) }
{
    add_squares(square(x[0], y[0]), square(x[1], y[1]), square(x[2], y[2]))
}

/// The sum of the scalar products of two moments both ways round, which are the same.
#[inline]
fn both_ways(x: &[i64; 3], y: &[i64; 3]) -> i128
    requires x { IsWithin moments_limit x.now }
    requires y { IsWithin moments_limit y.now }
    ensures value { result ≡ dot x.now y.now +ℤ dot y.now x.now }
    ensures small { unsigned_abs result ≤ 6 * (moments_limit * moments_limit) }
{
    2 * product(x, y)
}

/// The sum of three scalar products.
#[inline]
fn three(x: i128, y: i128, z: i128) -> i128
    requires x { unsigned_abs x ≤ 3 * (moments_limit * moments_limit) }
    requires y { unsigned_abs y ≤ 3 * (moments_limit * moments_limit) }
    requires z { unsigned_abs z ≤ 3 * (moments_limit * moments_limit) }
    ensures value { result ≡ (x +ℤ y) +ℤ z }
    ensures small { unsigned_abs result ≤ 9 * (moments_limit * moments_limit) }
{
    x + y + z
}

/// The middle coefficient of the squared length of a form of degree 2 whose coefficients are moments.
#[inline]
fn middle_squared(x: &[i64; 3], y: &[i64; 3], z: &[i64; 3]) -> i128
    requires x { IsWithin moments_limit x.now }
    requires y { IsWithin moments_limit y.now }
    requires z { IsWithin moments_limit z.now }
    ensures value { result ≡ (dot x.now z.now +ℤ dot y.now y.now) +ℤ dot z.now x.now }
    ensures small { unsigned_abs result ≤ 9 * (moments_limit * moments_limit) }
{
    both_ways(x, z) + product(y, y)
}

/// Four times a coefficient of degree 4.
#[inline]
fn four(x: i128) -> i128
    requires { unsigned_abs x ≤ 9 * (moments_limit * moments_limit) }
    ensures { result ≡ pos 4 *ℤ x }
{
    4 * x
}

/// The moment of a point between two samples, a form of degree 2 by its coefficients.
#[derive(Drop)]
pub struct Moments {
    pub start: [i64; 3],
    pub middle: [i64; 3],
    pub end: [i64; 3],
    ghost start_small: { IsWithin moments_limit start },
    ghost middle_small: { IsWithin moments_limit middle },
    ghost end_small: { IsWithin moments_limit end },
}

impl Moments {
    /// By the offsets p and q and the axes a and c at both samples.
    #[inline]
    pub fn between(p: &[i64; 3], q: &[i64; 3], a: &[i64; 3], c: &[i64; 3]) -> Moments
        requires p { IsWithin offset_limit p.now }
        requires q { IsWithin offset_limit q.now }
        requires a { IsWithin axis_limit a.now }
        requires c { IsWithin axis_limit c.now }
        ensures start { result.start ≡ moment p.now a.now }
        ensures middle { result.middle ≡ middle_moment p.now q.now a.now c.now }
        ensures end { result.end ≡ moment q.now c.now }
    {
        Moments {
            start: moment(p, a),
            middle: amid(p, q, a, c),
            end: moment(q, c),
        }
    }

    /// The same where the moments at both samples are known.
    #[inline]
    pub fn joining(
        start: &[i64; 3],
        end: &[i64; 3],
        p: &[i64; 3],
        q: &[i64; 3],
        a: &[i64; 3],
        c: &[i64; 3],
    ) -> Moments
        requires start { IsWithin moments_limit start.now }
        requires end { IsWithin moments_limit end.now }
        requires p { IsWithin offset_limit p.now }
        requires q { IsWithin offset_limit q.now }
        requires a { IsWithin axis_limit a.now }
        requires c { IsWithin axis_limit c.now }
        ensures start { result.start ≡ start.now }
        ensures middle { result.middle ≡ middle_moment p.now q.now a.now c.now }
        ensures end { result.end ≡ end.now }
    {
        Moments {
            start: *start,
            middle: amid(p, q, a, c),
            end: *end,
        }
    }

    /// Four times the squared length, of degree 4.
    #[inline]
    pub fn four_squares(&self) -> [i128; 5]
        ensures { let x = self.now in
            result ≡ scaled4 (pos 4) (vector_product x.start x.middle x.end x.start x.middle x.end) }
    {
        [
            four(self.squared(0)),
            four(self.squared(1)),
            four(self.squared(2)),
            four(self.squared(3)),
            four(self.squared(4)),
        ]
    }

    /// A coefficient of the squared length. A product of two different coefficients counts twice in it, and is computed once.
    #[inline]
    pub fn squared(&self, i: usize) -> i128
        requires { i < 5 }
        ensures value { let x = self.now in
            result ≡ at (vector_product x.start x.middle x.end x.start x.middle x.end) i }
        ensures small { unsigned_abs result ≤ 9 * (moments_limit * moments_limit) }
    {
        match i {
            0 => product(&self.start, &self.start),
            1 => both_ways(&self.start, &self.middle),
            2 => middle_squared(&self.start, &self.middle, &self.end),
            3 => both_ways(&self.middle, &self.end),
            _ => product(&self.end, &self.end),
        }
    }

    /// A coefficient of the scalar product with that of another point, which has degree 4.
    #[inline]
    pub fn times(&self, y: &Moments, i: usize) -> i128
        requires { i < 5 }
        ensures value { let x = self.now in let y = y.now in
            result ≡ at (vector_product x.start x.middle x.end y.start y.middle y.end) i }
        ensures small { unsigned_abs result ≤ 9 * (moments_limit * moments_limit) }
    {
        match i {
            0 => product(&self.start, &y.start),
            1 => product(&self.start, &y.middle) + product(&self.middle, &y.start),
            2 => three(
                product(&self.start, &y.end),
                product(&self.middle, &y.middle),
                product(&self.end, &y.start),
            ),
            3 => product(&self.middle, &y.end) + product(&self.end, &y.middle),
            _ => product(&self.end, &y.end),
        }
    }
}
