ghost use Rattle.std.specs.Prelude.{◌*◌, ◌≤◌, ◌^◌, ◌≤ℤ◌, pos, unsigned_abs};
ghost use Rattle.space.specs.Ranges.{IsWithin};
ghost use Rattle.sweep_boxes.specs.Limits.{side_component_limit};

/// How far the places that are left on an interval can be to either side of its way: the product of their moment with `side`, which is near
/// to where the way goes across the axis, is no further from zero than `across`. Where that isn't known, both are zero, which holds of
/// every place.
#[derive(Drop)]
pub struct SideBound {
    pub side: [i128; 3],
    pub across: i128,
    ghost side_within: { IsWithin side_component_limit side },
    ghost across_some: { pos 0 ≤ℤ across },
    ghost across_small: { unsigned_abs across ≤ 4 * 10 ^ 18 },
}
