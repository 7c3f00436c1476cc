ghost use Rattle.std.specs.Prelude.{◌*◌, ◌≤◌, ◌≤ℤ◌, pos};
ghost use Rattle.space.specs.Ranges.{IsWithin, vector_limit};
ghost use Rattle.sweep_boxes.specs.Limits.{place_limit};

/// A part of a move, one of 2^level that are equally long, by its middle and by what changes on it. The tip and the axis in the middle are
/// taken times `scale`, which is 2 * 2^level; `offset_change` and `axis_change` are what the offset of a point and the axis change by;
/// `longest` is at least the square of the axis at both ends, taken times 2^level.
#[derive(Drop)]
pub struct SweepInterval {
    pub scale: u32,
    pub tip: [i128; 3],
    pub axis: [i128; 3],
    pub offset_change: [i128; 3],
    pub axis_change: [i128; 3],
    pub longest: i128,
    ghost scaled: { (1 ≤ scale) × (scale ≤ 128) },
    ghost tip_within: { IsWithin (128 * place_limit) tip },
    ghost axis_within: { IsWithin vector_limit axis },
    ghost offset_change_within: { IsWithin vector_limit offset_change },
    ghost axis_change_within: { IsWithin vector_limit axis_change },
    ghost long: { (pos 0 ≤ℤ longest) × (longest ≤ℤ pos (3 * (vector_limit * vector_limit))) },
}
