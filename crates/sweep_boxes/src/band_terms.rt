ghost use Rattle.std.specs.Prelude.{◌*◌, ◌≤◌, ◌^◌, ◌≤ℤ◌, pos, unsigned_abs};

/// What all bands of an interval share, whatever the width of their slabs. `height_slack` is what the height of a place may change by,
/// `shortest` at most twice the length of the axis throughout, and `longest` at least the length at both ends, times the scale. The moment
/// of a place changes by no more than `change` and is bent by `bent`, along a side by `side_slack` in all. `square` is that of the side,
/// and `third` of what the products of two moments lose.
#[derive(Drop)]
pub struct BandTerms {
    pub height_slack: i128,
    pub shortest: i128,
    pub longest: i128,
    pub change: i128,
    pub bent: i128,
    pub square: i128,
    pub third: i128,
    pub side_slack: i128,
    ghost height_slack_small: { unsigned_abs height_slack ≤ 3 * 10 ^ 18 },
    ghost shortest_small: { (pos 0 ≤ℤ shortest) × (unsigned_abs shortest ≤ 10 ^ 9) },
    ghost longest_small: { (pos 0 ≤ℤ longest) × (unsigned_abs longest ≤ 10 ^ 18) },
    ghost change_small: { (pos 0 ≤ℤ change) × (unsigned_abs change ≤ 10 ^ 18) },
    ghost bent_small: { (pos 0 ≤ℤ bent) × (unsigned_abs bent ≤ 10 ^ 18) },
    ghost square_small: { (pos 0 ≤ℤ square) × (unsigned_abs square ≤ 192) },
    ghost third_small: { (pos 0 ≤ℤ third) × (unsigned_abs third ≤ 10 ^ 33) },
    ghost side_slack_small: { (pos 0 ≤ℤ side_slack) × (unsigned_abs side_slack ≤ 10 ^ 36) },
}
