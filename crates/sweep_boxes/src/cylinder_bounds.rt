ghost use Rattle.std.specs.Prelude.{◌*◌, ◌≤◌, ◌^◌, ◌≤ℤ◌, pos, unsigned_abs};

/// What holds the places that are left on an interval of slabs of at most a width and a height, of those whose offsets from the tip
/// in the middle are between two others: their height times the length of the axis is at least `least` and at most `most`, and
/// their distance from the axis times its length at most `moment`.
#[derive(Drop)]
pub struct CylinderBounds {
    pub least: i128,
    pub most: i128,
    pub moment: i128,
    ghost least_small: { unsigned_abs least ≤ 4 * 10 ^ 18 },
    ghost most_small: { unsigned_abs most ≤ 4 * 10 ^ 18 },
    ghost moment_some: { pos 0 ≤ℤ moment },
    ghost moment_small: { unsigned_abs moment ≤ 3 * 10 ^ 18 },
}
