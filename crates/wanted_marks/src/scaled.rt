ghost use Rattle.std.specs.Prelude.{◌≡◌, ◌*◌, ◌<◌, ◌≤◌, ◌*ℤ◌, ◌-ℤ◌, pos, unsigned_abs};
ghost use Rattle.space.specs.Ranges.{IsPoint, IsWithin, axis_unit};
ghost use Rattle.space.specs.Vectors.{at};
ghost use Rattle.bern_form.specs.Sizes.{axis_limit, offset_limit, scale_limit};
ghost use Rattle.wanted_marks.specs.Ways.{scaled_vector, scaled_way};

/// A coordinate times the scale.
#[inline]
fn weighted(scale: u32, place: i32) -> i64
    requires scale { scale ≤ scale_limit }
    requires place { unsigned_abs place ≤ 1000000 }
    ensures value { result ≡ pos scale *ℤ place }
    ensures small { unsigned_abs result ≤ scale * 1000000 }
{
    i64::from(scale) * i64::from(place)
}

/// A component of the way from one point to another, times the scale.
#[inline]
fn way_along(scale: u32, from: &[i32; 3], to: &[i32; 3], i: usize) -> i64
    requires axis { i < 3 }
    requires scale { scale ≤ scale_limit }
    requires from { unsigned_abs (at from.now i) ≤ 1000000 }
    requires to { unsigned_abs (at to.now i) ≤ 1000000 }
    ensures { result ≡ pos scale *ℤ at to.now i -ℤ pos scale *ℤ at from.now i }
{
    weighted(scale, to[i]) - weighted(scale, from[i])
}

/// The way from one point to another, times the scale.
pub fn scaled_way(scale: u32, from: &[i32; 3], to: &[i32; 3]) -> [i64; 3]
    requires scale { scale ≤ scale_limit }
    requires from { IsPoint from.now }
    requires to { IsPoint to.now }
    ensures way { result ≡ scaled_way (pos scale) from.now to.now }
    ensures small { IsWithin offset_limit result }
{
    [
        way_along(scale, from, to, 0),
        way_along(scale, from, to, 1),
        way_along(scale, from, to, 2),
    ]
}

/// A step of a grid, times the scale.
pub fn scaled_step(scale: u32, step: i32) -> i64
    requires scale { scale ≤ scale_limit }
    requires step { unsigned_abs step ≤ 1000000 }
    ensures value { result ≡ pos scale *ℤ step }
    ensures small { unsigned_abs result ≤ offset_limit }
{
    weighted(scale, step)
}

/// A component of the axis, times the scale.
#[inline]
fn axis_along(scale: u32, axis: &[i32; 3], i: usize) -> i64
    requires axis { i < 3 }
    requires scale { scale ≤ scale_limit }
    requires unit { unsigned_abs (at axis.now i) ≤ 100000 }
    ensures { result ≡ pos scale *ℤ at axis.now i }
{
    weighted(scale, axis[i])
}

/// The axis, times the scale.
pub fn scaled_axis(scale: u32, axis: &[i32; 3]) -> [i64; 3]
    requires scale { scale ≤ scale_limit }
    requires axis { IsWithin axis_unit axis.now }
    ensures axis { result ≡ scaled_vector (pos scale) axis.now }
    ensures small { IsWithin axis_limit result }
{
    [
        axis_along(scale, axis, 0),
        axis_along(scale, axis, 1),
        axis_along(scale, axis, 2),
    ]
}
