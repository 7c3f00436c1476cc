ghost use Rattle.std.specs.Prelude.{◌≡◌, ◌*◌, ◌<◌, ◌≤◌, ◌*ℤ◌, ◌-ℤ◌, pos, unsigned_abs};
ghost use Rattle.space.specs.Ranges.{IsWithin, vector_limit};
ghost use Rattle.space.specs.Vectors.{at};
ghost use Rattle.sweep_boxes.specs.Intervals.{offset_from};
ghost use Rattle.sweep_boxes.specs.Limits.{place_limit};
ghost use Rattle.near_points.specs.AxisOrder.{ray_axis_first, way_across, way_along};

use ray_grid::Family;

/// A place or a length, taken times the scale.
#[inline]
pub fn scaled(scale: u32, place: i32) -> i64
    requires scale { scale ≤ 128 }
    requires place { unsigned_abs place ≤ place_limit }
    ensures value { result ≡ pos scale *ℤ place }
    ensures small { unsigned_abs result ≤ 128 * place_limit }
{
    i64::from(scale) * i64::from(place)
}

/// The offset of a place from a tip along an axis, taken times the scale.
#[inline]
fn offset_along(scale: u32, place: &[i32; 3], tip: &[i64; 3], i: usize) -> i64
    requires i { i < 3 }
    requires scale { scale ≤ 128 }
    requires place { unsigned_abs (at place.now i) ≤ place_limit }
    requires tip { unsigned_abs (at tip.now i) ≤ 128 * place_limit }
    ensures value { result ≡ pos scale *ℤ at place.now i -ℤ at tip.now i }
    ensures small { unsigned_abs result ≤ vector_limit }
{
    scaled(scale, place[i]) - tip[i]
}

/// The offset of a place from a tip, taken times the scale.
pub fn offset_from(scale: u32, tip: &[i64; 3], place: &[i32; 3]) -> [i64; 3]
    requires scale { scale ≤ 128 }
    requires place { IsWithin place_limit place.now }
    requires tip { IsWithin (128 * place_limit) tip.now }
    ensures value { result ≡ offset_from (pos scale) tip.now place.now }
    ensures small { IsWithin vector_limit result }
{
    [
        offset_along(scale, place, tip, 0),
        offset_along(scale, place, tip, 1),
        offset_along(scale, place, tip, 2),
    ]
}

/// A vector with the component along the rays of a family first, and then those along the axes after theirs.
pub fn ray_axis_first(family: Family, v: &[i64; 3]) -> [i64; 3]
    requires { IsWithin vector_limit v.now }
    ensures value { result ≡ ray_axis_first family v.now }
    ensures small { IsWithin vector_limit result }
{
    match family {
        Family::X => [v[0], v[1], v[2]],
        Family::Y => [v[1], v[2], v[0]],
        Family::Z => [v[2], v[0], v[1]],
    }
}

/// A way from a ray of a strip to the next one, with its components in that order.
pub fn way_across(family: Family, way: i64) -> [i64; 3]
    requires { unsigned_abs way ≤ vector_limit }
    ensures value { result ≡ way_across family way }
    ensures small { IsWithin vector_limit result }
{
    match family {
        Family::X | Family::Z => [0, 0, way],
        Family::Y => [0, way, 0],
    }
}
