ghost use Rattle.std.specs.Prelude.{◌*◌, ◌≤◌, ◌^◌, ◌*ℤ◌, ◌-ℤ◌, ◌<ℤ◌, ◌≤ℤ◌, ℤ, pos, unsigned_abs};
ghost use Rattle.sweep_boxes.specs.BandTerms.{IsRiseAbove};
ghost use Rattle.sweep_boxes.specs.Limits.{place_limit};

use crate::shared::least_square;
use crate::sweep_interval::SweepInterval;
use crate::weight::weighted;
use space::root_down;

/// How high a place is throughout an interval that is as high as slabs begin, times the length of the axis. It is 0 for slabs from the
/// tip up, and where the axis may be as short as nothing.
pub fn rise_above(interval: &SweepInterval, lowest: i32) -> i128
    requires lowest { unsigned_abs lowest ≤ place_limit }
    ensures value { IsRiseAbove result lowest interval.now }
    ensures small { unsigned_abs result ≤ 10 ^ 18 }
{
    if lowest < 1 {
        return 0;
    }
    let least = least_square(interval);
    if least < 1 {
        return 0;
    }
    weighted(interval.scale, lowest) * root_down(least)
}

/// At most the height of each place that is left: where twice the height slack is below the rise it is the rise less the height slack, else
/// it is as far below the tip as the height slack.
#[inline]
pub fn floor_of(rise: i128, height_slack: i128) -> i128
    requires rise { unsigned_abs rise ≤ 10 ^ 18 }
    requires height_slack { unsigned_abs height_slack ≤ 3 * 10 ^ 18 }
    ensures value { (z : ℤ) → (pos 0 -ℤ height_slack) ≤ℤ z → ((pos 2 *ℤ height_slack) <ℤ rise → (rise -ℤ height_slack) ≤ℤ z) → result ≤ℤ z }
    ensures small { unsigned_abs result ≤ 4 * 10 ^ 18 }
{
    if 2 * height_slack < rise {
        rise - height_slack
    } else {
        -height_slack
    }
}
