ghost use Rattle.std.specs.Prelude.{◌*◌, ◌≤◌, ◌^◌, ◌≤ℤ◌, pos, unsigned_abs};

/// A height, as a scalar product with the axis in the middle of a move, below which only some of the lowest slabs are met. Those are
/// narrower than the others, so of a place below it the cross product with the axis is no longer than `moment`, and its product with the
/// side of the cylinder is no further from zero than `across`.
#[derive(Drop)]
pub struct Band {
    pub height: i64,
    pub moment: i64,
    pub across: i64,
    ghost moment_some: { pos 0 ≤ℤ moment },
    ghost moment_small: { unsigned_abs moment ≤ 3 * 10 ^ 18 },
    ghost across_some: { pos 0 ≤ℤ across },
}

impl Band {
    ghost use Rattle.std.specs.Prelude.{◌≡◌};

    /// One that no place is below of, whose height is at least `least`.
    #[inline]
    pub fn unused(least: i64) -> Band
        ensures { result.height ≡ least }
    {
        Band {
            height: least,
            moment: 0,
            across: 0,
        }
    }
}
