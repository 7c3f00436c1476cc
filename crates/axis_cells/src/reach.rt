ghost use Rattle.std.specs.Prelude.{◌≡◌};
ghost use Rattle.space.specs.Reach.{is_in_reach};

use crate::sweep::Sweep;
use space::is_in_reach;

/// Whether the point is within the reach of the move along each axis: at least the lesser end minus `reach` and at most the
/// greater end plus `reach`. Micrometres.
pub fn in_reach(sweep: &Sweep, reach: i32, point: [i32; 3]) -> bool
    ensures { result ≡ is_in_reach reach sweep.now.from sweep.now.to point }
{
    is_in_reach(reach, &sweep.from, &sweep.to, &point)
}
