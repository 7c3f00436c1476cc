ghost use Rattle.std.specs.Prelude.{◌≡◌, ℕ, ◌+◌, ◌*◌, ◌/◌, ◌<◌, ◌≤◌, ◌^◌, ◌&&◌, ◌++◌, OnOk, length};
ghost use Rattle.vf_spans.specs.Members.{in_range};
ghost use Rattle.vf_spans.specs.Words.{has_bit};
ghost use Rattle.ray_grid.specs.Families.{second_axis};
ghost use Rattle.ray_grid.specs.Lattice.{nodes_of, points_of};
ghost use Rattle.near_points.specs.Rays.{cylinder_ray_at};
ghost use Rattle.ray_words.specs.Rays.{is_wanted_at};
ghost use Rattle.wanted_marks.specs.Rays.{is_possible_at, is_sure_at};
ghost use Rattle.strip_marks.specs.RayMarks.{Adds, AreAsked, AreAskedIn, AreWordsMarked, CanCount};
ghost use Rattle.strip_marks.specs.Words.{AreMarksAdded, AreSetsOf, noted};

use crate::candidate_word::CandidateWord;
use crate::change::WordChange;
use crate::move_changes::MoveChanges;
use dexel_rays::{WordDelta, WordSets};
use near_points::CylinderStrip;
use ray_words::WordRay;
use vf_io::NoMemory;
use vf_spans::bits::bits_of_range;
use wanted_marks::{RayMarker, WordMarks};

/// The wanted points of a word of a ray that lie in the window.
#[inline]
pub fn wanted_in(ray: &WordRay, word: u32, window: (u32, u32)) -> u64
    requires from { window.0 / 64 ≤ word }
    requires to { 64 * word < window.1 }
    ensures { (b : ℕ) → b < 64 → has_bit result b ≡ (is_wanted_at ray.now.sets (64 * word + b) && in_range (64 * word + b) window) }
{
    let wanted = ray.wanted(word);
    if wanted == 0 {
        return 0;
    }
    wanted & bits_of_range(word, window.0, window.1)
}

/// The candidates of a move in a word of ray n: of the wanted points in its window all that its cylinder holds, and none that
/// it doesn't hold where it is widest.
#[inline]
pub fn candidates_in(
    near: &CylinderStrip<'_>,
    ray: &WordRay,
    n: u32,
    word: u32,
    window: (u32, u32),
) -> u64
    requires n { n < nodes_of near.now.grid (second_axis near.now.family) }
    requires from { window.0 / 64 ≤ word }
    requires to { 64 * word < window.1 }
    requires on { window.1 ≤ points_of near.now.grid near.now.family }
    ensures { AreAskedIn (cylinder_ray_at near.now n) ray.now.sets window word result }
{
    near.held_points(n, 64 * word, wanted_in(ray, word, window))
}

/// Notes what changes at a word, if anything does.
fn note(
    changes: &mut Vec<WordChange>,
    ray: u32,
    word: u32,
    delta: &WordDelta,
) -> Result<(), NoMemory>
    ensures { OnOk result (changes.new.items ≡ changes.old.items ++ noted ray word delta.now) }
{
    if delta.sure == 0 && delta.possible == 0 {
        return Ok(());
    }
    changes.push(WordChange {
        ray,
        word,
        sure: delta.sure,
        possible: delta.possible,
    })?;
    Ok(())
}

/// Takes in what a move with these marks changes at a word of ray n, and what it finds there: where it marks no point, nothing.
fn add_marks(
    sets: &WordSets,
    marks: WordMarks,
    n: u32,
    word: u32,
    rapid: bool,
    marked: &mut MoveChanges,
) -> Result<(), NoMemory>
    requires { CanCount 64 marked.old.counts }
    ensures { OnOk result (Adds marked.old marked.new (λ added found.
        AreMarksAdded sets.now marks.sure marks.possible rapid n word added found)) }
{
    if marks.sure == 0 && marks.possible == 0 {
        return Ok(());
    }
    let (delta, found) = sets.add(marks.sure, marks.possible, rapid);
    marked.counts = marked.counts.plus(&found);
    note(&mut marked.changes, n, word, &delta)?;
    Ok(())
}

/// Takes in what a move changes at the points of a word of ray n, and what it finds there, by its candidates. `slab` is the
/// number of a slab of the cutter to look from.
pub fn mark_word(
    marker: &RayMarker<'_>,
    ray: &WordRay,
    n: u32,
    asked: CandidateWord,
    rapid: bool,
    slab: &mut usize,
    marked: &mut MoveChanges,
) -> Result<(), NoMemory>
    requires ray { AreSetsOf marker.now ray.now.sets }
    requires asked { AreAsked marker.now ray.now.sets asked.word asked.points }
    requires few { 64 * asked.word < 2 ^ 32 }
    requires within { 64 * asked.word < length ray.now.sets.stock }
    requires room { CanCount 64 marked.old.counts }
    ensures { OnOk result (Adds marked.old marked.new (λ added found.
        AreWordsMarked ray.now.sets (is_sure_at marker.now) (is_possible_at marker.now) rapid n asked.word (asked.word + 1) added found)) }
{
    let CandidateWord { word, points } = asked;
    if points == 0 {
        return Ok(());
    }
    let sets = ray.word(word);
    let marks = marker.mark(64 * word, points, sets.sure_only(rapid), slab);
    add_marks(&sets, marks, n, word, rapid, marked)?;
    Ok(())
}
