use crate::case::Case;
use cutter_slabs::Stacks;
use std::alloc::Global;
use sweep_boxes::{PointBox, push_boxes};
use vf_io::NoMemory;
use vf_spans::bits::with_bit;

/// The box of all points of the plate.
const REGION: PointBox = PointBox {
    low: [0, 0, 0],
    high: [2_500, 2_500, 1_500],
};

/// The boxes of a move, of all points of the plate.
pub(crate) fn boxes_of(
    alloc: Global,
    case: &Case,
    stacks: &Stacks,
) -> Result<Vec<PointBox>, NoMemory> {
    let mut boxes = Vec::new(alloc);
    push_boxes(&mut boxes, &case.sweep, stacks, case.depth, &REGION)?;
    Ok(boxes)
}

/// Which of the first 64 points of a ray lie in some box.
pub(crate) fn box_word(case: &Case, boxes: &[PointBox]) -> u64 {
    let mut word = 0;
    for b in 0..64 {
        if case.grid.has_point(&case.ray, b) {
            let point = case.grid.point(&case.ray, b);
            if is_in_some(boxes, &point) {
                word = with_bit(word, b);
            }
        }
    }
    word
}

fn is_in_some(boxes: &[PointBox], point: &[i32; 3]) -> bool {
    for part in boxes {
        if is_inside(part, point) {
            return true;
        }
    }
    false
}

fn is_inside(part: &PointBox, point: &[i32; 3]) -> bool {
    is_among(part.low[0], part.high[0], point[0])
        && is_among(part.low[1], part.high[1], point[1])
        && is_among(part.low[2], part.high[2], point[2])
}

fn is_among(low: i32, high: i32, x: i32) -> bool {
    low <= x && x <= high
}
