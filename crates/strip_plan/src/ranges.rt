ghost use Rattle.std.specs.Prelude.{◌↔◌, ℕ, IsTrue};
ghost use Rattle.strip_plan.specs.Ranges.{IsIn, Joins};

/// Whether an index is in a range.
#[inline]
pub fn is_in(range: (u32, u32), index: u32) -> bool
    ensures { IsTrue result ↔ IsIn range index }
{
    range.0 <= index && index < range.1
}

/// Whether no index is in a range.
#[inline]
pub fn is_none(range: (u32, u32)) -> bool
    ensures { IsTrue result → (index : ℕ) → IsIn range index → ⊥ }
{
    range.0 >= range.1
}

/// The least range that holds two ranges. An empty one counts for nothing.
#[inline]
pub fn hull(one: (u32, u32), other: (u32, u32)) -> (u32, u32)
    ensures { Joins one other result }
{
    if other.0 == other.1 {
        return one;
    }
    if one.0 == one.1 {
        return other;
    }
    (one.0.min(other.0), one.1.max(other.1))
}
