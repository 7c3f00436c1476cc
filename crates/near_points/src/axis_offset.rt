ghost use Rattle.std.specs.Prelude.{◌≡◌, ◌*◌, ◌<◌, ◌≤◌, ◌+ℤ◌, ◌*ℤ◌, ◌-ℤ◌, pos, unsigned_abs};
ghost use Rattle.space.specs.Ranges.{IsWithin, vector_limit};
ghost use Rattle.space.specs.Vectors.{at, cross, dot};
ghost use Rattle.sweep_boxes.specs.Limits.{side_component_limit};
ghost use Rattle.near_points.specs.Limits.{moment_limit, tilt_limit};

/// The product of component `i` of a vector and component `j` of another.
#[inline]
fn product(p: &[i64; 3], i: usize, a: &[i64; 3], j: usize) -> i64
    requires i { i < 3 }
    requires j { j < 3 }
    requires p { unsigned_abs (at p.now i) ≤ vector_limit }
    requires a { unsigned_abs (at a.now j) ≤ vector_limit }
    ensures value { result ≡ at p.now i *ℤ at a.now j }
    ensures small { unsigned_abs result ≤ vector_limit * vector_limit }
{
    p[i] * a[j]
}

/// The scalar product of two vectors.
#[inline]
fn dot(p: &[i64; 3], a: &[i64; 3]) -> i64
    requires p { IsWithin vector_limit p.now }
    requires a { IsWithin vector_limit a.now }
    ensures value { result ≡ dot p.now a.now }
    ensures small { unsigned_abs result ≤ moment_limit }
{
    product(p, 0, a, 0) + product(p, 1, a, 1) + product(p, 2, a, 2)
}

/// The component of a cross product that is made of the components `i` and `j`.
#[inline]
fn minor(p: &[i64; 3], a: &[i64; 3], i: usize, j: usize) -> i64
    requires i { i < 3 }
    requires j { j < 3 }
    requires pi { unsigned_abs (at p.now i) ≤ vector_limit }
    requires pj { unsigned_abs (at p.now j) ≤ vector_limit }
    requires ai { unsigned_abs (at a.now i) ≤ vector_limit }
    requires aj { unsigned_abs (at a.now j) ≤ vector_limit }
    ensures value { result ≡ at p.now i *ℤ at a.now j -ℤ at p.now j *ℤ at a.now i }
    ensures small { unsigned_abs result ≤ 2 * (vector_limit * vector_limit) }
{
    product(p, i, a, j) - product(p, j, a, i)
}

/// a + n b
#[inline]
pub fn moved(a: i64, n: u32, b: i64) -> i64
    requires from { unsigned_abs a ≤ moment_limit }
    requires to { unsigned_abs (a +ℤ pos n *ℤ b) ≤ moment_limit }
    ensures { result ≡ a +ℤ pos n *ℤ b }
{
    a + i64::from(n) * b
}

/// The same of what is along a side, which can be greater.
#[inline]
pub fn tilted(a: i64, n: u32, b: i64) -> i64
    requires from { unsigned_abs a ≤ tilt_limit }
    requires to { unsigned_abs (a +ℤ pos n *ℤ b) ≤ tilt_limit }
    ensures { result ≡ a +ℤ pos n *ℤ b }
{
    a + i64::from(n) * b
}

/// The product of a component of a side and one of a moment.
#[inline]
fn share(side: &[i64; 3], i: usize, part: i64) -> i64
    requires i { i < 3 }
    requires side { unsigned_abs (at side.now i) ≤ side_component_limit }
    requires part { unsigned_abs part ≤ 2 * (vector_limit * vector_limit) }
    ensures value { result ≡ at side.now i *ℤ part }
    ensures small { unsigned_abs result ≤ side_component_limit * (2 * (vector_limit * vector_limit)) }
{
    side[i] * part
}

/// What of the moment of an offset under an axis is along a side, times the length of the side.
#[inline]
fn tilt(side: &[i64; 3], v: &[i64; 3], a: &[i64; 3]) -> i64
    requires side { IsWithin side_component_limit side.now }
    requires v { IsWithin vector_limit v.now }
    requires a { IsWithin vector_limit a.now }
    ensures value { result ≡ dot side.now (cross v.now a.now) }
    ensures small { unsigned_abs result ≤ tilt_limit }
{
    let along = share(side, 0, minor(v, a, 1, 2));
    let second = share(side, 1, minor(v, a, 2, 0));
    let third = share(side, 2, minor(v, a, 0, 1));
    along + second + third
}

/// The product of two numbers of moments.
#[inline]
pub fn wide_product(a: i64, b: i64) -> i128
    requires a { unsigned_abs a ≤ moment_limit }
    requires b { unsigned_abs b ≤ moment_limit }
    ensures value { result ≡ a *ℤ b }
    ensures small { unsigned_abs result ≤ moment_limit * moment_limit }
{
    i128::from(a) * i128::from(b)
}

/// How an offset v lies about an axis a: the component of its moment v x a along the rays of a family, those along the two axes after
/// theirs, what of the moment is along a side, and its height v . a. They are taken times the scale of the cylinder and the length of
/// the axis, and what is along the side also times the length of the side.
#[derive(Drop)]
pub struct AxisOffset {
    pub along: i64,
    pub second: i64,
    pub third: i64,
    pub side: i64,
    pub height: i64,
    ghost along_small: { unsigned_abs along ≤ moment_limit },
    ghost second_small: { unsigned_abs second ≤ moment_limit },
    ghost third_small: { unsigned_abs third ≤ moment_limit },
    ghost side_small: { unsigned_abs side ≤ tilt_limit },
    ghost height_small: { unsigned_abs height ≤ moment_limit },
}

impl AxisOffset {
    ghost use Rattle.near_points.specs.AxisOffsets.{IsAxisOffset};
    ghost use Rattle.near_points.specs.Lines.{FitsMoved, IsMoved, width_of};

    /// Of an offset, an axis and a side that have the component along the rays first.
    pub fn of_offset(v: &[i64; 3], a: &[i64; 3], side: &[i64; 3]) -> AxisOffset
        requires v { IsWithin vector_limit v.now }
        requires a { IsWithin vector_limit a.now }
        requires side { IsWithin side_component_limit side.now }
        ensures { IsAxisOffset result v.now a.now side.now }
    {
        AxisOffset {
            along: minor(v, a, 1, 2),
            second: minor(v, a, 2, 0),
            third: minor(v, a, 0, 1),
            side: tilt(side, v, a),
            height: dot(v, a),
        }
    }

    /// j times what another adds.
    #[inline]
    pub fn moved(&self, by: &AxisOffset, j: u32) -> AxisOffset
        requires { FitsMoved self.now by.now (pos j) }
        ensures { IsMoved result self.now by.now (pos j) }
    {
        AxisOffset {
            along: moved(self.along, j, by.along),
            second: moved(self.second, j, by.second),
            third: moved(self.third, j, by.third),
            side: tilted(self.side, j, by.side),
            height: moved(self.height, j, by.height),
        }
    }

    /// The square of the moment.
    #[inline]
    pub fn width(&self) -> i128
        ensures value { result ≡ width_of self.now }
        ensures small { unsigned_abs result ≤ 3 * (moment_limit * moment_limit) }
    {
        let along = wide_product(self.along, self.along);
        let second = wide_product(self.second, self.second);
        let third = wide_product(self.third, self.third);
        along + second + third
    }
}
