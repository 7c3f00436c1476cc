ghost use Rattle.std.specs.Prelude.{◌≡◌, ℕ, ◌<◌, ◌≤◌, length};
ghost use Rattle.ray_grid.specs.Grids.{GridSize};
ghost use Rattle.ray_grid.specs.Strips.{strip_at, strip_of, strips_of};
ghost use Rattle.strip_plan.specs.Boxed.{IsInOneOf};
ghost use Rattle.strip_plan.specs.IndexBoxes.{AreBoxesOf};
ghost use Rattle.strip_plan.specs.Ranges.{IsIn, IsRangeOf};
ghost use Rattle.strip_plan.specs.StripRanges.{count_of, index_of};

use crate::index_box::IndexBox;
use crate::ranges::hull;
use crate::strip_range::StripRange;
use ray_grid::{Family, Grid};

/// The family and the first node of a strip's rays.
pub fn row(grid: &Grid, strip: u32) -> (Family, u32)
    requires { strip < length (strips_of grid.now) }
    ensures { strip_at grid.now strip ≡ strip_of grid.now result.0 result.1 }
{
    // Reading a field of the grid gives the prover its invariant; so the strip has a ray.
    let _valid = &grid.origin;
    let first = grid.strip_ray(strip, 0);
    (first.family, first.i)
}

/// The range of a strip, that of a family's rays with the first node `i`, that has what the boxes from a place on and before another have
/// of it.
// Inlined into each of its calls, so that a box is tested neither for the family nor for which of its ranges is meant.
#[inline(always)]
fn range_of(
    boxes: &[IndexBox],
    start: usize,
    end: usize,
    family: Family,
    i: u32,
    which: StripRange,
) -> (u32, u32)
    requires { end ≤ length boxes.now }
    ensures range { (grid : GridSize) → AreBoxesOf grid boxes.now → IsRangeOf (count_of grid family which) result }
    ensures has { (j l : ℕ) → IsInOneOf boxes.now start end record { family = family; i = i; j = j } l → IsIn result (index_of which j l) }
{
    let mut range = (0, 0);
    for place in start..end {
        range = hull(range, boxes[place].in_strip(family, i, which));
    }
    range
}

/// The same, in a walk for each family.
#[inline(always)]
pub fn range_in_strip(
    boxes: &[IndexBox],
    start: usize,
    end: usize,
    family: Family,
    i: u32,
    which: StripRange,
) -> (u32, u32)
    requires { end ≤ length boxes.now }
    ensures range { (grid : GridSize) → AreBoxesOf grid boxes.now → IsRangeOf (count_of grid family which) result }
    ensures has { (j l : ℕ) → IsInOneOf boxes.now start end record { family = family; i = i; j = j } l → IsIn result (index_of which j l) }
{
    match family {
        Family::X => range_of(boxes, start, end, Family::X, i, which),
        Family::Y => range_of(boxes, start, end, Family::Y, i, which),
        Family::Z => range_of(boxes, start, end, Family::Z, i, which),
    }
}
