ghost use Rattle.std.specs.Prelude.{◌≡◌, ◌*◌, ◌<◌, ◌≤◌, ◌*ℤ◌, pos, unsigned_abs};
ghost use Rattle.space.specs.Ranges.{IsPoint, IsWithin};
ghost use Rattle.space.specs.Vectors.{at};
ghost use Rattle.space.specs.Sweeps.{axis_at, between, offset, offset_at};
ghost use Rattle.bern_form.specs.Sizes.{axis_limit, offset_limit, scale_limit};

use crate::sweep::Sweep;

/// Where a point is relative to the cutter at one sample: its offset from the tip, and the axis, both times the scale.
#[derive(Drop)]
pub struct Pose {
    pub offset: [i64; 3],
    pub axis: [i64; 3],
    ghost offset_within: { IsWithin offset_limit offset },
    ghost axis_within: { IsWithin axis_limit axis },
}

/// A coordinate or a component taken as often as a weight says.
#[inline]
fn weighted(weight: u32, place: i32) -> i64
    requires weight { weight ≤ scale_limit }
    requires place { unsigned_abs place ≤ 1000000 }
    ensures value { result ≡ pos weight *ℤ place }
    ensures small { unsigned_abs result ≤ weight * 1000000 }
{
    i64::from(weight) * i64::from(place)
}

/// `scale` times a component of the place between two ends at the time `k / scale`.
#[inline]
fn place_between(k: u32, scale: u32, from: &[i32; 3], to: &[i32; 3], i: usize) -> i64
    requires axis { i < 3 }
    requires within { k ≤ scale }
    requires scale { scale ≤ scale_limit }
    requires from { unsigned_abs (at from.now i) ≤ 1000000 }
    requires to { unsigned_abs (at to.now i) ≤ 1000000 }
    ensures place { result ≡ between (pos k) (pos scale) (at from.now i) (at to.now i) }
    ensures small { unsigned_abs result ≤ scale * 1000000 }
{
    weighted(scale - k, from[i]) + weighted(k, to[i])
}

/// `scale` times a component of a point's offset from the place between two ends at the time `k / scale`.
#[inline]
fn offset_from(
    k: u32,
    scale: u32,
    point: &[i32; 3],
    from: &[i32; 3],
    to: &[i32; 3],
    i: usize,
) -> i64
    requires axis { i < 3 }
    requires within { k ≤ scale }
    requires scale { scale ≤ scale_limit }
    requires point { unsigned_abs (at point.now i) ≤ 1000000 }
    requires from { unsigned_abs (at from.now i) ≤ 1000000 }
    requires to { unsigned_abs (at to.now i) ≤ 1000000 }
    ensures { result ≡ offset (pos k) (pos scale) (at point.now i) (at from.now i) (at to.now i) }
{
    weighted(scale, point[i]) - place_between(k, scale, from, to, i)
}

impl Pose {
    /// The pose at the time `k / scale`.
    pub fn at_sample(sweep: &Sweep, point: &[i32; 3], k: u32, scale: u32) -> Pose
        requires point { IsPoint point.now }
        requires within { k ≤ scale }
        requires scale { scale ≤ scale_limit }
        ensures offset { result.offset ≡ offset_at sweep.now point.now (pos k) (pos scale) }
        ensures axis { result.axis ≡ axis_at sweep.now (pos k) (pos scale) }
    {
        Pose {
            offset: [
                offset_from(k, scale, point, &sweep.from, &sweep.to, 0),
                offset_from(k, scale, point, &sweep.from, &sweep.to, 1),
                offset_from(k, scale, point, &sweep.from, &sweep.to, 2),
            ],
            axis: [
                place_between(k, scale, &sweep.axis_from, &sweep.axis_to, 0),
                place_between(k, scale, &sweep.axis_from, &sweep.axis_to, 1),
                place_between(k, scale, &sweep.axis_from, &sweep.axis_to, 2),
            ],
        }
    }
}
