use crate::grid::Grid;
use crate::ray::{Family, Ray};

impl Grid {
    ghost use Rattle.std.specs.Prelude.{◌≡◌, ℕ, ◌<◌, ◌≤◌, Some, length, slice_get};
    ghost use Rattle.ray_grid.specs.Families.{first_axis, second_axis};
    ghost use Rattle.ray_grid.specs.Lattice.{IsRay, nodes_of};
    ghost use Rattle.ray_grid.specs.Points.{rays_of};
    ghost use Rattle.ray_grid.specs.Strips.{first_number, ray_number, strip_of, strips_of, strip_at, strip_number};

    /// How many strips the grid has.
    pub fn strips(&self) -> u32
        ensures { result ≡ length (strips_of self.now) }
    {
        self.nodes(0) + self.nodes(1) + self.nodes(0)
    }

    /// How many rays a strip has.
    pub fn strip_len(&self, strip: u32) -> u32
        requires { strip < length (strips_of self.now) }
        ensures { result ≡ length (strip_at self.now strip) }
    {
        let (family, _) = self.row(strip);
        self.nodes(family.second_axis())
    }

    /// The ray of number `n` of a strip.
    pub fn strip_ray(&self, strip: u32, n: u32) -> Ray
        requires strip { strip < length (strips_of self.now) }
        requires ray { n < length (strip_at self.now strip) }
        ensures there { slice_get (strip_at self.now strip) n ≡ Some result }
        ensures ray { IsRay self.now result }
    {
        let (family, i) = self.row(strip);
        Ray { family, i, j: n }
    }

    /// The strip of a ray, and the ray's number in it: the only place where the ray is.
    pub fn place(&self, ray: &Ray) -> (u32, u32)
        requires { IsRay self.now ray.now }
        ensures strip { result.0 < length (strips_of self.now) }
        ensures there { slice_get (strip_at self.now result.0) result.1 ≡ Some ray.now }
        ensures only { (strip n : ℕ) → slice_get (strip_at self.now strip) n ≡ Some ray.now
            → (strip ≡ result.0) × (n ≡ result.1) }
    {
        (self.strip_number(ray.family, ray.i), ray.j)
    }

    /// The number of the strip of a family's rays with the node `i`.
    fn strip_number(&self, family: Family, i: u32) -> u32
        requires { i < nodes_of self.now (first_axis family) }
        ensures { result ≡ strip_number self.now family i }
    {
        let (x, y) = (self.nodes(0), self.nodes(1));
        match family {
            Family::Z => i,
            Family::X => x + i,
            Family::Y => x + y + i,
        }
    }

    /// The number of a ray among all rays of the grid in their order, strip by strip.
    pub fn ray_number(&self, ray: &Ray) -> u32
        requires { IsRay self.now ray.now }
        ensures number { result ≡ ray_number self.now ray.now }
        ensures there { slice_get (rays_of self.now) result ≡ Some ray.now }
    {
        // Reading a field of the grid gives the prover its invariant.
        let _valid = &self.origin;
        let along = self.nodes(ray.family.second_axis());
        self.first_number(ray.family) + (ray.i * along + ray.j)
    }

    /// The number of a family's first ray.
    fn first_number(&self, family: Family) -> u32
        ensures number { result ≡ first_number self.now family }
        ensures few { result ≤ 320000 }
    {
        let (x, y, z) = (self.nodes(0), self.nodes(1), self.nodes(2));
        match family {
            Family::Z => 0,
            Family::X => x * y,
            Family::Y => x * y + y * z,
        }
    }

    /// The family and the node `i` of a strip's rays.
    pub(crate) fn row(&self, strip: u32) -> (Family, u32)
        requires { strip < length (strips_of self.now) }
        ensures rays { strip_at self.now strip ≡ strip_of self.now result.0 result.1 }
        ensures node { result.1 < nodes_of self.now (first_axis result.0) }
    {
        let (x, y) = (self.nodes(0), self.nodes(1));
        if strip < x {
            (Family::Z, strip)
        } else if strip < x + y {
            (Family::X, strip - x)
        } else {
            (Family::Y, strip - x - y)
        }
    }
}
