ghost use Rattle.std.specs.Prelude.{◌*◌, ◌≤◌, ◌*ℤ◌, ◌≤ℤ◌, pos, unsigned_abs};
ghost use Rattle.sweep_boxes.specs.Limits.{place_limit};
ghost use Rattle.space.specs.Ranges.{vector_limit};

/// What the places along an axis are computed by: the square of the axis in the middle of an interval, the scale, and its component, the
/// tip and the range of places along one of the three axes.
#[derive(Drop)]
pub struct Line {
    pub square: i128,
    pub scale: u32,
    pub axis: i128,
    pub tip: i128,
    pub low: i32,
    pub high: i32,
    ghost some: { pos 1 ≤ℤ square },
    ghost square_small: { unsigned_abs square ≤ 3 * (vector_limit * vector_limit) },
    ghost scaled: { (1 ≤ scale) × (scale ≤ 128) },
    ghost axis_small: { unsigned_abs axis ≤ vector_limit },
    ghost part: { (axis *ℤ axis) ≤ℤ square },
    ghost tip_small: { unsigned_abs tip ≤ 128 * place_limit },
    ghost low_small: { unsigned_abs low ≤ place_limit },
    ghost high_small: { unsigned_abs high ≤ place_limit },
}
