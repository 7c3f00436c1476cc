ghost use Rattle.std.specs.Prelude.{◌≡◌, ◌/◌, ◌^◌, ◌<◌, OnOk, All, length, slice_set};
ghost use Rattle.vf_spans.specs.Words.{words_below};
ghost use Rattle.ray_grid.specs.Families.{second_axis};
ghost use Rattle.ray_grid.specs.Lattice.{nodes_of};
ghost use Rattle.ray_words.specs.Rows.{kept_at};
ghost use Rattle.near_points.specs.Rays.{cylinder_ray_at};
ghost use Rattle.wanted_marks.specs.Rays.{is_possible_at, is_sure_at};
ghost use Rattle.strip_marks.specs.Marks.{sets_of};
ghost use Rattle.strip_marks.specs.Words.{AreSetsOf};
ghost use Rattle.strip_marks.specs.RayMarks.{Adds, AreWordsMarked, CanCount, HasSameSets};
ghost use Rattle.strip_marks.specs.RayMarks.{HaveWordsBelow, IsAtKept, IsFirstAsked, IsNearOf, IsRayMarked, IsWindow};

use crate::candidate_word::CandidateWord;
use crate::change::WordChange;
use crate::move_changes::MoveChanges;
use crate::word::{candidates_in, mark_word};
use near_points::CylinderStrip;
use ray_words::{StripRays, WordRay};
use vf_io::NoMemory;
use wanted_marks::RayMarker;

/// Takes in what a move changes on ray n, and what it finds there, from the first word with candidates on.
fn mark_words(
    marker: &RayMarker<'_>,
    near: &CylinderStrip<'_>,
    ray: &WordRay,
    n: u32,
    first: CandidateWord,
    window: (u32, u32),
    rapid: bool,
    slab: &mut usize,
    marked: &mut MoveChanges,
) -> Result<(), NoMemory>
    requires ray { AreSetsOf marker.now ray.now.sets }
    requires window { IsWindow marker.now window.0 window.1 }
    requires n { n < nodes_of near.now.grid (second_axis near.now.family) }
    requires near { IsNearOf (cylinder_ray_at near.now n) marker.now }
    requires first { IsFirstAsked (cylinder_ray_at near.now n) ray.now.sets window first }
    requires room { CanCount (2 ^ 33) marked.old.counts }
    ensures { OnOk result (Adds marked.old marked.new (λ added found.
        AreWordsMarked ray.now.sets (is_sure_at marker.now) (is_possible_at marker.now) rapid n (window.0 / 64) (words_below window.1)
        added found)) }
{
    mark_word(marker, ray, n, first, rapid, slab, marked)?;
    let end = u64::from(window.1);
    let mut word = first.word + 1;
    while 64 * u64::from(word) < end {
        let points = candidates_in(near, ray, n, word, window);
        let asked = CandidateWord { word, points };
        mark_word(marker, ray, n, asked, rapid, slab, marked)?;
        word += 1;
    }
    Ok(())
}

/// Keeps the words of the changes, which are all of ray n, in order.
fn keep_changed(rays: &mut StripRays, n: u32, changes: &[WordChange]) -> Result<(), NoMemory>
    requires some { n < length rays.old }
    requires words { HaveWordsBelow (words_below (length (sets_of rays.old n).stock)) changes.now }
    ensures others { rays.new ≡ slice_set rays.old n (kept_at rays.new n) }
    ensures same { HasSameSets (kept_at rays.old n) (kept_at rays.new n) }
    ensures kept { OnOk result (All (IsAtKept (kept_at rays.new n)) changes.now) }
{
    let count = changes.len();
    if 0 < count {
        // The bound fits.
        let _bound = rays.ray(n).bound();
        rays.keep_words(n, changes[0].word, changes[count - 1].word + 1)?;
    }
    Ok(())
}

/// Takes in what a move changes on ray n, and what it finds there, from the first word with candidates on. Each
/// word that changes is kept from then on. `slab` is the number of a slab of the cutter to look from.
pub fn mark_strip_ray(
    marker: &RayMarker<'_>,
    near: &CylinderStrip<'_>,
    rays: &mut StripRays,
    n: u32,
    first: CandidateWord,
    window: (u32, u32),
    rapid: bool,
    slab: &mut usize,
    marked: &mut MoveChanges,
) -> Result<(), NoMemory>
    requires some { n < length rays.old }
    requires ray { AreSetsOf marker.now (sets_of rays.old n) }
    requires window { IsWindow marker.now window.0 window.1 }
    requires n { n < nodes_of near.now.grid (second_axis near.now.family) }
    requires near { IsNearOf (cylinder_ray_at near.now n) marker.now }
    requires first { IsFirstAsked (cylinder_ray_at near.now n) (sets_of rays.old n) window first }
    requires room { CanCount (2 ^ 33) marked.old.counts }
    ensures others { rays.new ≡ slice_set rays.old n (kept_at rays.new n) }
    ensures same { HasSameSets (kept_at rays.old n) (kept_at rays.new n) }
    ensures marked { OnOk result (Adds marked.old marked.new (λ added found.
        IsRayMarked (kept_at rays.new n) (is_sure_at marker.now) (is_possible_at marker.now) rapid n added found)) }
{
    let ray = rays.ray(n);
    // The bound fits.
    let _bound = ray.bound();
    let start = marked.changes.len();
    mark_words(marker, near, ray, n, first, window, rapid, slab, marked)?;
    keep_changed(rays, n, &marked.changes.as_slice()[start..])?;
    Ok(())
}
