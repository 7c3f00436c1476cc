use crate::boxes::{box_word, boxes_of};
use crate::case::Case;
use crate::sets::sets_of;
use crate::tally::{Tally, with_bits, with_differences};
use crate::word_marks::count_markers;
use crate::words::{Word, first_word, plain_word, point_word};
use cutter_slabs::Stacks;
use std::alloc::Global;
use vf_io::NoMemory;
use vf_spans::Words;

/// Marks one ray by each body, where it has a point.
pub(crate) fn compare(
    alloc: Global,
    case: &Case,
    stacks: &Stacks,
    tally: &mut Tally,
) -> Result<(), NoMemory> {
    if !case.grid.has_point(&case.ray, 0) {
        return Ok(());
    }
    let plain = plain_word(case, stacks);
    count_points(case, stacks, &plain, tally);
    count_sets(alloc, case, stacks, &plain, tally)?;
    count_markers(case, stacks, &plain, tally);
    count_boxes(alloc, case, stacks, &plain, tally)
}

/// Counts the ray and its points, and what each by itself is marked otherwise.
fn count_points(case: &Case, stacks: &Stacks, plain: &Word, tally: &mut Tally) {
    tally.rays = tally.rays.wrapping_add(1);
    tally.points = tally
        .points
        .wrapping_add(u64::from(case.grid.points(case.ray.family)));
    tally.sure = with_bits(tally.sure, plain.sure);
    tally.possible = with_bits(tally.possible, plain.possible);
    tally.of_points = with_differences(tally.of_points, plain, &point_word(case, stacks));
}

/// Counts what the sets of the ray have otherwise.
fn count_sets(
    alloc: Global,
    case: &Case,
    stacks: &Stacks,
    plain: &Word,
    tally: &mut Tally,
) -> Result<(), NoMemory> {
    let sets = sets_of(alloc, case, stacks)?;
    let word = Word {
        sure: first_word(&Words::from_spans(alloc, &sets.sure)?),
        possible: first_word(&Words::from_spans(alloc, &sets.possible)?),
    };
    tally.of_sets = with_differences(tally.of_sets, plain, &word);
    Ok(())
}

/// Counts the points in boxes, and the possible ones outside of them.
fn count_boxes(
    alloc: Global,
    case: &Case,
    stacks: &Stacks,
    plain: &Word,
    tally: &mut Tally,
) -> Result<(), NoMemory> {
    let boxes = boxes_of(alloc, case, stacks)?;
    let word = box_word(case, boxes.as_slice());
    tally.boxed = with_bits(tally.boxed, word);
    tally.outside = with_bits(tally.outside, plain.possible & !word);
    Ok(())
}
