ghost use Rattle.std.specs.Prelude.{◌≡◌, IsTrue};
ghost use Rattle.space.specs.Ranges.{IsWithin};
ghost use Rattle.ray_runs.specs.Missed.{AreBehindAt};
ghost use Rattle.moment_forms.specs.Moments.{moment};
ghost use Rattle.moment_forms.specs.Sizes.{moments_limit};

use crate::missed::{are_behind_at, are_beside_at};
use axis_cells::Pose;
use moment_forms::moment;

/// Where two points of a ray are relative to the cutter at one sample, and what is the same for the stretches before it and after it:
/// their moments, whether both are behind the tip, and whether both are beside a diameter.
#[derive(Drop)]
pub struct Pair {
    pub first: Pose,
    pub last: Pose,
    pub first_moment: [i64; 3],
    pub last_moment: [i64; 3],
    pub is_behind: bool,
    pub is_beside: bool,
    ghost first_is: { first_moment ≡ moment first.offset first.axis },
    ghost last_is: { last_moment ≡ moment last.offset first.axis },
    ghost first_small: { IsWithin moments_limit first_moment },
    ghost last_small: { IsWithin moments_limit last_moment },
    ghost behind: { IsTrue is_behind → AreBehindAt first.offset last.offset first.axis },
}

impl Pair {
    ghost use Rattle.ray_runs.specs.Missed.{AreBesideAt};

    /// Whether no stretch that begins or ends at the sample is found to be clear.
    #[inline]
    pub fn is_open(&self) -> bool {
        !self.is_behind && !self.is_beside
    }

    /// Two points by their poses, and the scaled square of a diameter.
    pub fn of_poses(first: Pose, last: Pose, square: i64) -> Pair
        ensures first { result.first ≡ first }
        ensures last { result.last ≡ last }
        ensures beside { IsTrue result.is_beside
            → AreBesideAt square result.first_moment result.last_moment result.first.axis }
    {
        let axis = &first.axis;
        let first_moment = moment(&first.offset, axis);
        let last_moment = moment(&last.offset, axis);
        let is_behind = are_behind_at(&first.offset, &last.offset, axis);
        let is_beside = are_beside_at(&first_moment, &last_moment, axis, square);
        Pair {
            first,
            last,
            first_moment,
            last_moment,
            is_behind,
            is_beside,
        }
    }
}
