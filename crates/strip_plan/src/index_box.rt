ghost use Rattle.std.specs.Prelude.{◌≡◌, ℕ, IsTrue};
ghost use Rattle.ray_grid.specs.Grids.{GridSize};
ghost use Rattle.strip_plan.specs.Holders.{HasNoPoint, HasNoneAlong};
ghost use Rattle.strip_plan.specs.IndexBoxes.{HasPoint, IsBoxOf, JoinsBoxes, ranges_for};
ghost use Rattle.strip_plan.specs.Ranges.{IsIn, IsRangeOf, Joins};
ghost use Rattle.strip_plan.specs.StripRanges.{count_of, index_of};

use crate::ranges::{hull, is_in, is_none};
use crate::strip_range::StripRange;
use ray_grid::{Family, Ray};

/// What a box has on one axis: its nodes, and the points of a ray along it. The second end of a range is excluded.
#[derive(Clone, Copy)]
pub struct AxisRanges {
    pub nodes: (u32, u32),
    pub points: (u32, u32),
}

/// A box by the indices of the lattice, so that what it has of a strip or a ray is found without a division.
#[derive(Clone, Copy)]
pub struct IndexBox {
    pub x: AxisRanges,
    pub y: AxisRanges,
    pub z: AxisRanges,
}

impl AxisRanges {
    /// The least ranges that hold those of two.
    #[inline]
    fn hull(&self, other: &AxisRanges) -> AxisRanges
        ensures nodes { Joins self.now.nodes other.now.nodes result.nodes }
        ensures points { Joins self.now.points other.now.points result.points }
    {
        AxisRanges {
            nodes: hull(self.nodes, other.nodes),
            points: hull(self.points, other.points),
        }
    }
}

impl IndexBox {
    /// The box that has nothing.
    pub fn none() -> IndexBox
        ensures { (grid : GridSize) → IsBoxOf grid result }
    {
        let none = AxisRanges {
            nodes: (0, 0),
            points: (0, 0),
        };
        IndexBox {
            x: none,
            y: none,
            z: none,
        }
    }

    /// The least box that has what two have.
    pub fn hull(&self, other: &IndexBox) -> IndexBox
        ensures { JoinsBoxes self.now other.now result }
    {
        IndexBox {
            x: self.x.hull(&other.x),
            y: self.y.hull(&other.y),
            z: self.z.hull(&other.z),
        }
    }

    /// The first nodes of a family's rays.
    #[inline]
    fn first(&self, family: Family) -> (u32, u32)
        ensures { result ≡ (ranges_for self.now family).first }
    {
        match family {
            Family::X => self.y.nodes,
            Family::Y | Family::Z => self.x.nodes,
        }
    }

    /// The second nodes of a family's rays.
    #[inline]
    fn second(&self, family: Family) -> (u32, u32)
        ensures { result ≡ (ranges_for self.now family).second }
    {
        match family {
            Family::X | Family::Y => self.z.nodes,
            Family::Z => self.y.nodes,
        }
    }

    /// The points along a family's rays.
    #[inline]
    pub fn along(&self, family: Family) -> (u32, u32)
        ensures { result ≡ (ranges_for self.now family).along }
    {
        match family {
            Family::X => self.x.points,
            Family::Y => self.y.points,
            Family::Z => self.z.points,
        }
    }

    /// Whether it has no point of a family's rays.
    fn has_none_along(&self, family: Family) -> bool
        ensures { IsTrue result → HasNoneAlong self.now family }
    {
        is_none(self.first(family)) || is_none(self.second(family)) || is_none(self.along(family))
    }

    /// Whether it has no point.
    pub fn is_empty(&self) -> bool
        ensures { IsTrue result → HasNoPoint self.now }
    {
        self.has_none_along(Family::X)
            && self.has_none_along(Family::Y)
            && self.has_none_along(Family::Z)
    }

    /// A range that the box has of a strip, that of a family's rays with the first node `i`: the numbers of the rays with a point in it, or
    /// the indices of the points that it has on them.
    // Inlined into each of its calls, so that `which` isn't tested.
    #[inline(always)]
    pub fn in_strip(&self, family: Family, i: u32, which: StripRange) -> (u32, u32)
        ensures range { (grid : GridSize) → IsBoxOf grid self.now → IsRangeOf (count_of grid family which) result }
        ensures has { (j l : ℕ) → HasPoint self.now record { family = family; i = i; j = j } l → IsIn result (index_of which j l) }
    {
        if !is_in(self.first(family), i) {
            return (0, 0);
        }
        let along = self.along(family);
        match which {
            StripRange::Points => along,
            StripRange::Rays if along.0 < along.1 => self.second(family),
            StripRange::Rays => (0, 0),
        }
    }
}
