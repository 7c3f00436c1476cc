ghost use Rattle.std.specs.Prelude.{◌≡◌, [], ◌<◌, ◌≤◌, ◌^◌, IfOk, OnOk, length, slice_set};
ghost use Rattle.ray_grid.specs.Families.{second_axis};
ghost use Rattle.ray_grid.specs.Lattice.{nodes_of};
ghost use Rattle.ray_grid.specs.Strips.{strip_at, strips_of};
ghost use Rattle.job_model.specs.Tasks.{IsPlan, JobMove};
ghost use Rattle.ray_words.specs.Rows.{kept_at};
ghost use Rattle.near_points.specs.Rays.{cylinder_ray_at};
ghost use Rattle.wanted_marks.specs.Rays.{is_possible_at, is_sure_at};
ghost use Rattle.wanted_marks.specs.Strips.{ray_at};
ghost use Rattle.strip_plan.specs.Plans.{HasNumber};
ghost use Rattle.strip_marks.specs.Marks.{AreRays, HaveSameSets, IsMarkedStrip, sets_of};
ghost use Rattle.strip_marks.specs.Words.{AreSetsOf};
ghost use Rattle.strip_marks.specs.RayMarks.{Adds, CanCount, HasSameSets, IsFirstAsked, IsNearOf, IsRayMarked, IsWindow};
ghost use Rattle.strip_marks.specs.RowMarks.{AreRaysMarked};

use crate::asked::first_in;
use crate::candidate_word::CandidateWord;
use crate::change::WordChange;
use crate::move_changes::MoveChanges;
use crate::ray::mark_strip_ray;
use job_counts::Counts;
use near_points::CylinderStrip;
use ray_words::StripRays;
use strip_plan::Plan;
use vf_io::NoMemory;
use wanted_marks::{LOW_SLAB, StripMarker};

/// Takes in what a move changes on ray n of a strip, and what it finds there, from the first word with candidates on.
/// `slab` is the number of a slab of the cutter to look from.
fn mark_asked<'x>(
    marker: &'x StripMarker<'x>,
    near: &CylinderStrip<'_>,
    rays: &mut StripRays,
    n: u32,
    first: CandidateWord,
    along: (u32, u32),
    rapid: bool,
    slab: &mut usize,
    marked: &mut MoveChanges,
) -> Result<(), NoMemory>
    requires some { n < length rays.old }
    requires ray { AreSetsOf (ray_at marker.now n) (sets_of rays.old n) }
    requires window { IsWindow (ray_at marker.now n) along.0 along.1 }
    requires node { n < nodes_of marker.now.grid (second_axis marker.now.family) }
    requires n { n < nodes_of near.now.grid (second_axis near.now.family) }
    requires near { IsNearOf (cylinder_ray_at near.now n) (ray_at marker.now n) }
    requires first { IsFirstAsked (cylinder_ray_at near.now n) (sets_of rays.old n) along first }
    requires room { CanCount (2 ^ 33) marked.old.counts }
    ensures others { rays.new ≡ slice_set rays.old n (kept_at rays.new n) }
    ensures same { HasSameSets (kept_at rays.old n) (kept_at rays.new n) }
    ensures marked { OnOk result (Adds marked.old marked.new (λ added found.
        IsRayMarked (kept_at rays.new n) (is_sure_at (ray_at marker.now n)) (is_possible_at (ray_at marker.now n)) rapid n added found)) }
{
    let on_ray = marker.on_ray(n);
    mark_strip_ray(&on_ray, near, rays, n, first, along, rapid, slab, marked)?;
    Ok(())
}

/// What the move changes on the rays of the strip from the one number on and below the other, and what it finds there. A move
/// enters few strips, so this is a function of its own; and of those that it enters a third has no candidate.
/// The changes go into the list that is given.
#[inline(never)]
fn mark_rays(
    room: Vec<WordChange>,
    rays: &mut StripRays,
    plan: &Plan,
    number: u32,
    strip: u32,
    window: (u32, u32),
) -> Result<MoveChanges, NoMemory>
    requires plan { IsPlan plan.now }
    requires number { number < length plan.now.moves }
    requires strip { strip < length (strips_of plan.now.grid) }
    requires rays { AreRays plan.now.grid strip rays.old }
    requires some { window.0 < window.1 }
    requires within { window.1 ≤ length rays.old }
    requires room { room.items ≡ [] }
    ensures same { HaveSameSets rays.old rays.new }
    ensures marked { IfOk result (λ m. (move : JobMove) → HasNumber plan.now number move
        → AreRaysMarked plan.now move strip rays.old rays.new window.0 window.1 m.changes.items m.counts) }
{
    let grid = plan.grid();
    let row = grid.strip_ray(strip, 0);
    let along = plan.strip_along(number, row.family, row.i);
    let rapid = plan.is_rapid(number);
    let near = CylinderStrip::new(plan.cylinder(number), grid, row.family, row.i);
    let mut marked = MoveChanges {
        changes: room,
        counts: Counts::none(),
    };
    let mut next = first_in(&near, rays, along, window.0, window.1);
    if next.is_none() {
        return Ok(marked);
    }
    let mover = plan.marker(number);
    let marker = mover.on_strip(grid, row.family, row.i);
    // Rays side by side mostly meet the same slab.
    let mut slab = LOW_SLAB;
    while let Some((n, first)) = next {
        mark_asked(
            &marker,
            &near,
            rays,
            n,
            first,
            along,
            rapid,
            &mut slab,
            &mut marked,
        )?;
        next = first_in(&near, rays, along, n + 1, window.1);
    }
    Ok(marked)
}

/// What a move of the plan changes on a strip, by the sets of the strip's rays, and what it finds there. Only the points of the
/// move's windows are looked at. The sets stay; the words where something changes are kept from then on. A list that is done with gives
/// its memory for the changes.
pub fn mark_strip(
    mut room: Vec<WordChange>,
    rays: &mut StripRays,
    plan: &Plan,
    number: u32,
    strip: u32,
) -> Result<MoveChanges, NoMemory>
    requires number { number < length plan.now.moves }
    requires strip { strip < length (strips_of plan.now.grid) }
    requires rays { AreRays plan.now.grid strip rays.old }
    ensures same { HaveSameSets rays.old rays.new }
    ensures marked { IfOk result (λ m. (move : JobMove) → HasNumber plan.now number move
        → IsMarkedStrip plan.now move strip rays.old rays.new m.changes.items m.counts) }
{
    // A call on the plan gives the prover its invariant.
    let _valid = plan.moves();
    let window = plan.strip_window(number, strip);
    room.clear();
    if window.0 == window.1 {
        return Ok(MoveChanges {
            changes: room,
            counts: Counts::none(),
        });
    }
    let marked = mark_rays(room, rays, plan, number, strip, window)?;
    Ok(marked)
}
