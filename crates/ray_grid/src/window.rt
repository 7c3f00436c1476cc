use crate::grid::Grid;
use crate::near::Reach;
use crate::ray::{Family, Ray};

impl Grid {
    ghost use Rattle.std.specs.Prelude.{◌≡◌, ℕ, ◌<◌, ◌≤◌, ◌↔◌, IsTrue, IsSomeAnd, length, slice_get};
    ghost use Rattle.ray_grid.specs.Families.{ray_axis};
    ghost use Rattle.ray_grid.specs.Lattice.{IsRay, nodes_of, points_of, node_at, place_at, point_of};
    ghost use Rattle.ray_grid.specs.OnAxis.{is_near_on};
    ghost use Rattle.ray_grid.specs.Strips.{strips_of, strip_at};
    ghost use Rattle.ray_grid.specs.Selects.{Selects};
    ghost use Rattle.space.specs.Reach.{is_in_reach};
    ghost use Rattle.ray_grid.specs.Reach.{Enters};

    /// The indices of a ray's points within reach of the segment from `from` to `to`, the first
    /// included, the second excluded; the two are equal where there are none.
    ///
    /// A ray's points differ on one axis only: the ray's two nodes are near or not, and along it
    /// the points within reach follow each other.
    pub fn window(&self, ray: &Ray, from: [i32; 3], to: [i32; 3], reach: i32) -> (u32, u32)
        requires { IsRay self.now ray.now }
        ensures order { result.0 ≤ result.1 }
        ensures within { result.1 ≤ points_of self.now ray.now.family }
        ensures exact { Selects result.0 result.1 (λ l. (l < points_of self.now ray.now.family)
            × IsTrue (is_in_reach reach from to (point_of self.now ray.now l))) }
    {
        let near = Reach { from, to, reach };
        let family = ray.family;
        let first = family.first_axis();
        if !near.holds(first, self.node(first, ray.i)) {
            return (0, 0);
        }
        let second = family.second_axis();
        if !near.holds(second, self.node(second, ray.j)) {
            return (0, 0);
        }
        self.points_within(&near, family)
    }

    /// The numbers of a strip's rays that have a point within reach of the segment from `from` to
    /// `to`, the first included, the second excluded; the two are equal where there are none.
    ///
    /// The rays of a strip differ only in their node `j`: all of them have the same points within
    /// reach along them, if any, and the near nodes follow each other.
    pub fn strip_window(&self, strip: u32, from: [i32; 3], to: [i32; 3], reach: i32) -> (u32, u32)
        requires { strip < length (strips_of self.now) }
        ensures order { result.0 ≤ result.1 }
        ensures within { result.1 ≤ length (strip_at self.now strip) }
        ensures exact { Selects result.0 result.1
            (λ n. IsSomeAnd (slice_get (strip_at self.now strip) n) (Enters self.now from to reach)) }
    {
        let near = Reach { from, to, reach };
        let (family, i) = self.row(strip);
        let first = family.first_axis();
        if !near.holds(first, self.node(first, i)) {
            return (0, 0);
        }
        let (start, end) = self.points_within(&near, family);
        if start == end {
            return (0, 0);
        }
        self.nodes_within(&near, family.second_axis())
    }

    /// The indices of the points on a ray of the family that are within reach on the ray's axis.
    fn points_within(&self, near: &Reach, family: Family) -> (u32, u32)
        ensures order { result.0 ≤ result.1 }
        ensures within { result.1 ≤ points_of self.now family }
        ensures exact { let axis = ray_axis family in Selects result.0 result.1
            (λ l. (l < points_of self.now family) × IsTrue (is_near_on near.now axis (place_at self.now axis l))) }
    {
        let axis = family.axis();
        near.indices(axis, self.origin[axis], self.step, self.points(family))
    }

    /// The indices of the nodes that are within reach on the axis.
    fn nodes_within(&self, near: &Reach, axis: usize) -> (u32, u32)
        requires { axis < 3 }
        ensures order { result.0 ≤ result.1 }
        ensures within { result.1 ≤ nodes_of self.now axis }
        ensures exact { Selects result.0 result.1
            (λ n. (n < nodes_of self.now axis) × IsTrue (is_near_on near.now axis (node_at self.now axis n))) }
    {
        near.indices(axis, self.origin[axis], self.pitch, self.nodes(axis))
    }
}
