ghost use Rattle.std.specs.Prelude.{◌≡◌, ◌<◌};
ghost use Rattle.ray_grid.specs.Lattice.{points_of};

use crate::case::Case;
use crate::tally::{Tally, with_differences};
use crate::words::Word;
use cutter_slabs::Stacks;
use vf_spans::bits::bits_below;
use wanted_marks::{LOW_SLAB, MoveMarker, RayMarker, ReadyMove};

/// All points of a word, each third one, and each other one.
const ALL: u64 = u64::MAX;

const EACH_THIRD: u64 = 0x9249_2492_4924_9249;

const EACH_OTHER: u64 = 0x5555_5555_5555_5555;

/// Counts what the markers of the ray and of its strip have otherwise.
pub(crate) fn count_markers(case: &Case, stacks: &Stacks, plain: &Word, tally: &mut Tally)
    requires some { 0 < points_of case.now.grid case.now.ray.family }
{
    let ready = ReadyMove::new(&case.sweep, stacks, case.depth, &case.grid);
    let mover = MoveMarker::of_ready(&case.sweep, stacks, case.depth, &ready);
    count_words(&mover.on_ray(&case.grid, case.ray), case, plain, tally);
    let strip = mover.on_strip(&case.grid, case.ray.family, case.ray.i);
    count_words(&strip.on_ray(case.ray.j), case, plain, tally);
}

/// Counts what the words of a marker have otherwise: of all points, and of some of them, where of some it is only reported whether
/// they are sure.
fn count_words(marker: &RayMarker<'_>, case: &Case, plain: &Word, tally: &mut Tally)
    requires some { 0 < points_of case.now.grid case.now.ray.family }
    requires grid { marker.now.grid ≡ case.now.grid }
    requires ray { marker.now.ray ≡ case.now.ray }
{
    count_wanted(marker, case, plain, ALL, 0, tally);
    count_wanted(marker, case, plain, EACH_THIRD, EACH_OTHER, tally);
    count_wanted(marker, case, plain, !EACH_THIRD, EACH_OTHER, tally);
}

/// The same of the points of one pattern.
fn count_wanted(
    marker: &RayMarker<'_>,
    case: &Case,
    plain: &Word,
    pattern: u64,
    sure_only: u64,
    tally: &mut Tally,
)
    requires some { 0 < points_of case.now.grid case.now.ray.family }
    requires grid { marker.now.grid ≡ case.now.grid }
    requires ray { marker.now.ray ≡ case.now.ray }
{
    let wanted = bits_below(pattern, case.grid.points(case.ray.family));
    let mut slab = LOW_SLAB;
    let marks = marker.mark(0, wanted, sure_only, &mut slab);
    let word = Word {
        sure: marks.sure,
        possible: marks.possible,
    };
    count_told(plain, &word, wanted, sure_only, tally);
}

/// Counts what the marks of a word have otherwise than the plain ones of the wanted points.
fn count_told(plain: &Word, marks: &Word, wanted: u64, sure_only: u64, tally: &mut Tally) {
    let told = Word {
        sure: plain.sure & wanted,
        possible: (plain.possible & !sure_only | plain.sure & sure_only) & wanted,
    };
    tally.of_words = with_differences(tally.of_words, &told, marks);
}
