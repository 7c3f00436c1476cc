use crate::grid::Grid;
use crate::ray::{Family, Ray};

impl Grid {
    ghost use Rattle.std.specs.Prelude.{◌≡◌, ◌+◌, ◌<◌, ◌≤◌, ◌↔◌, IsTrue, length, Contains};
    ghost use Rattle.ray_grid.specs.Lattice.{IsRay, is_point_on, is_ray_on, points_of};
    ghost use Rattle.ray_grid.specs.Points.{IsPointOf, LatticePoint, family_points, lattice_of};

    /// Whether the grid has the ray, and the ray a point of this index.
    pub fn has_point(&self, ray: &Ray, l: u32) -> bool
        ensures test { result ≡ is_point_on self.now ray.now l }
        ensures has { IsTrue result ↔ (IsRay self.now ray.now × (l < points_of self.now ray.now.family)) }
    {
        self.has_ray(ray) && l < self.points(ray.family)
    }

    /// Whether the ray's nodes are nodes of the grid.
    fn has_ray(&self, ray: &Ray) -> bool
        ensures { result ≡ is_ray_on self.now ray.now }
    {
        ray.i < self.nodes(ray.family.first_axis()) && ray.j < self.nodes(ray.family.second_axis())
    }

    /// How many points the lattice has: those of the rays of the three families. A location on the rays of two families
    /// counts twice.
    pub fn lattice_len(&self) -> u64
        ensures len { result ≡ length (lattice_of self.now) }
        ensures families { result
            ≡ family_points self.now Family.Z + family_points self.now Family.X + family_points self.now Family.Y }
        // The lattice has no other items than points of the grid.
        ensures only { (point : LatticePoint) → Contains (lattice_of self.now) point → IsPointOf self.now point }
    {
        self.family_len(Family::Z) + self.family_len(Family::X) + self.family_len(Family::Y)
    }

    /// How many points the rays of a family have.
    fn family_len(&self, family: Family) -> u64
        ensures len { result ≡ family_points self.now family }
        ensures few { result ≤ 64000000000 }
    {
        let first = u64::from(self.nodes(family.first_axis()));
        let second = u64::from(self.nodes(family.second_axis()));
        let along = u64::from(self.nodes(family.axis())) * u64::from(self.per_node());
        first * (second * along)
    }
}
