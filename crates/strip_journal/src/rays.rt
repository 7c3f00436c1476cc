ghost use Rattle.std.specs.Prelude.{◌≡◌, ◌∷◌, ◌≤◌, [], All, false, length, slice_set};
ghost use Rattle.ray_words.specs.Rows.{kept_at};
ghost use Rattle.strip_marks.specs.Marks.{IsChangeOn};
ghost use Rattle.strip_journal.specs.Fresh.{AreCleared};
ghost use Rattle.strip_journal.specs.Steps.{AreRaysTurned, IsRayTurned};

use crate::changes::ChangesPart;
use ray_words::StripRays;
use strip_marks::WordChange;

/// Takes the points of a change away from its ray, or adds them.
fn change_ray(rays: &mut StripRays, change: &WordChange, is_undo: bool)
    requires { IsChangeOn rays.old change.now }
    ensures others { rays.new ≡ slice_set rays.old change.now.ray (kept_at rays.new change.now.ray) }
    ensures turned { IsRayTurned (kept_at rays.old change.now.ray) (kept_at rays.new change.now.ray) (change.now ∷ []) change.now.ray
        is_undo }
{
    if is_undo {
        rays.remove_delta(change.ray, change.word, &change.delta());
    } else {
        rays.add_delta(change.ray, change.word, &change.delta());
    }
}

/// Adds the points of changes that aren't packed yet. It takes no memory.
pub fn give_all(rays: &mut StripRays, changes: &[WordChange])
    requires { All (IsChangeOn rays.old) changes.now }
    ensures { AreRaysTurned rays.old rays.new changes.now false }
{
    for change in changes {
        change_ray(rays, change, false);
    }
}

/// Takes the points of changes away, or adds them. It takes no memory.
pub fn change_all(rays: &mut StripRays, changes: &ChangesPart<'_>, is_undo: bool)
    requires { All (IsChangeOn rays.old) changes.now }
    ensures { AreRaysTurned rays.old rays.new changes.now is_undo }
{
    for k in 0..changes.len() {
        change_ray(rays, &changes.get(k), is_undo);
    }
}

/// Forgets what moves marked on the first `count` rays. It takes no memory.
pub fn clear_all(rays: &mut StripRays, count: u32)
    requires { count ≤ length rays.old }
    ensures { AreCleared count rays.old rays.new }
{
    for n in 0..count {
        rays.clear(n);
    }
}
