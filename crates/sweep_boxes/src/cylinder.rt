ghost use Rattle.std.specs.Prelude.{◌*◌, ◌≤◌, ◌^◌, ◌≤ℤ◌, pos, unsigned_abs};
ghost use Rattle.space.specs.Ranges.{IsWithin, vector_limit};
ghost use Rattle.sweep_boxes.specs.Limits.{place_limit, side_component_limit};

use crate::band::Band;

/// The number of heights below which the cylinder is narrower.
pub const BANDS: usize = 8;

/// A cylinder about the tool axis in the middle of a move, wide and high enough that it holds every point of a region at which the move
/// is possible. The tip and the axis are those in the middle, times `scale`. Of an offset from that tip, times `scale`, the scalar
/// product with the axis is from `least` to `most`, the cross product is no longer than `moment`, and its product with `side` is no
/// further from zero than `across`. The side is near to where the way goes across the axis, so the last is how far the offset is from
/// the plane of the axis and the way. Near the tip the cutter is narrower: that is what the `bands` say, from the lowest to the highest.
#[derive(Drop)]
pub struct BoundingCylinder {
    pub scale: u32,
    pub tip: [i64; 3],
    pub axis: [i64; 3],
    pub least: i64,
    pub most: i64,
    pub moment: i64,
    pub side: [i64; 3],
    pub across: i64,
    pub bands: [Band; BANDS],
    ghost scaled: { (1 ≤ scale) × (scale ≤ 128) },
    ghost tip_within: { IsWithin (128 * place_limit) tip },
    ghost axis_within: { IsWithin vector_limit axis },
    ghost moment_some: { pos 0 ≤ℤ moment },
    ghost moment_small: { unsigned_abs moment ≤ 3 * 10 ^ 18 },
    ghost side_within: { IsWithin side_component_limit side },
    ghost across_some: { pos 0 ≤ℤ across },
}
