ghost use Rattle.std.specs.Prelude.{◌≡◌, ◌+ℤ◌, ◌-ℤ◌, int_le, ◌||◌};
ghost use Rattle.space.specs.Reach.{is_in_reach, is_near};

/// Whether a coordinate is at least another less the reach.
#[inline]
fn is_above(reach: i32, end: i32, x: i32) -> bool
    ensures { result ≡ int_le (end -ℤ reach) x }
{
    i64::from(end) - i64::from(reach) <= i64::from(x)
}

/// Whether a coordinate is at most another and the reach.
#[inline]
fn is_below(reach: i32, end: i32, x: i32) -> bool
    ensures { result ≡ int_le x (end +ℤ reach) }
{
    i64::from(x) <= i64::from(end) + i64::from(reach)
}

#[inline]
fn is_above_either(reach: i32, from: i32, to: i32, x: i32) -> bool
    ensures { result ≡ (int_le (from -ℤ reach) x || int_le (to -ℤ reach) x) }
{
    is_above(reach, from, x) || is_above(reach, to, x)
}

#[inline]
fn is_below_either(reach: i32, from: i32, to: i32, x: i32) -> bool
    ensures { result ≡ (int_le x (from +ℤ reach) || int_le x (to +ℤ reach)) }
{
    is_below(reach, from, x) || is_below(reach, to, x)
}

/// Whether a coordinate is at least the lesser end minus the reach and at most the greater end plus the reach.
#[inline]
pub fn is_near(reach: i32, from: i32, to: i32, x: i32) -> bool
    ensures { result ≡ is_near reach from to x }
{
    is_above_either(reach, from, to, x) && is_below_either(reach, from, to, x)
}

/// Whether a point is within reach of the segment from `from` to `to` along each axis. All are micrometres.
pub fn is_in_reach(reach: i32, from: &[i32; 3], to: &[i32; 3], point: &[i32; 3]) -> bool
    ensures { result ≡ is_in_reach reach from.now to.now point.now }
{
    is_near(reach, from[0], to[0], point[0])
        && is_near(reach, from[1], to[1], point[1])
        && is_near(reach, from[2], to[2], point[2])
}
