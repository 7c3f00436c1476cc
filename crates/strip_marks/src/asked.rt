ghost use Rattle.std.specs.Prelude.{◌<◌, ◌≤◌, length};
ghost use Rattle.std.specs.Option.{IfNone, IfSome};
ghost use Rattle.ray_grid.specs.Families.{second_axis};
ghost use Rattle.ray_grid.specs.Lattice.{nodes_of, points_of};
ghost use Rattle.near_points.specs.Rays.{cylinder_ray_at};
ghost use Rattle.strip_marks.specs.RayMarks.{IsFirstAsked, IsUnasked};
ghost use Rattle.strip_marks.specs.RowMarks.{AreUnasked, IsFirstIn, IsOpenRay};

use crate::candidate_word::CandidateWord;
use crate::word::candidates_in;
use near_points::CylinderStrip;
use ray_words::{StripRays, WordRay};

/// The first ray, from the one number on and below the other, on which something is left of the window that the cylinder may hold, and
/// what is left there: without what is settled at either end. Most rays that a move enters are passed over here, so nothing else of them
/// is looked at.
#[inline]
fn next_open(
    near: &CylinderStrip<'_>,
    rays: &StripRays,
    window: (u32, u32),
    from: u32,
    end: u32,
) -> Option<(u32, (u32, u32))>
    requires order { window.0 ≤ window.1 }
    requires on { window.1 ≤ points_of near.now.grid near.now.family }
    requires some { from ≤ end }
    requires within { end ≤ length rays.now }
    requires nodes { end ≤ nodes_of near.now.grid (second_axis near.now.family) }
    ensures none { IfNone result (AreUnasked near.now rays.now window from end) }
    ensures some { IfSome result (IsOpenRay near.now rays.now window from end) }
{
    for n in from..end {
        let left = rays.unsettled(n, window);
        if left.0 < left.1 && near.may_hold(n, left) {
            return Some((n, left));
        }
    }
    None
}

/// The first word of ray n of a strip with candidates of a move in the range, if there is one. A word with
/// no wanted point isn't tested against the cylinder.
#[inline]
fn first_word(
    near: &CylinderStrip<'_>,
    ray: &WordRay,
    n: u32,
    range: (u32, u32),
) -> Option<CandidateWord>
    requires n { n < nodes_of near.now.grid (second_axis near.now.family) }
    requires order { range.0 ≤ range.1 }
    requires on { range.1 ≤ points_of near.now.grid near.now.family }
    ensures none { IfNone result (IsUnasked (cylinder_ray_at near.now n) ray.now.sets range) }
    ensures some { IfSome result (IsFirstAsked (cylinder_ray_at near.now n) ray.now.sets range) }
{
    let end = u64::from(range.1);
    let mut word = range.0 / 64;
    while 64 * u64::from(word) < end {
        let points = candidates_in(near, ray, n, word, range);
        if points != 0 {
            return Some(CandidateWord { word, points });
        }
        word += 1;
    }
    None
}

/// The first ray, from the one number on and below the other, with candidates of a move in the window, and its first word
/// with candidates.
// Kept apart from its callers, so that the loop over the rays has all registers for itself.
#[inline(never)]
pub fn first_in(
    near: &CylinderStrip<'_>,
    rays: &StripRays,
    window: (u32, u32),
    from: u32,
    end: u32,
) -> Option<(u32, CandidateWord)>
    requires order { window.0 ≤ window.1 }
    requires on { window.1 ≤ points_of near.now.grid near.now.family }
    requires some { from ≤ end }
    requires within { end ≤ length rays.now }
    requires nodes { end ≤ nodes_of near.now.grid (second_axis near.now.family) }
    ensures none { IfNone result (AreUnasked near.now rays.now window from end) }
    ensures some { IfSome result (IsFirstIn near.now rays.now window from end) }
{
    let mut at = from;
    while let Some((n, left)) = next_open(near, rays, window, at, end) {
        if let Some(first) = first_word(near, rays.ray(n), n, left) {
            return Some((n, first));
        }
        at = n + 1;
    }
    None
}
