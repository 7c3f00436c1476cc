use crate::ray::{Family, Ray};
use std::marker::Model;

/// A grid of nodes, and on each ray through its nodes points at a finer step.
///
/// Lengths are micrometres. Node n of axis a lies at `origin[a] + n * pitch`, for n below
/// `counts[a]`. Point l of a ray along axis a lies at `origin[a] + l * step`, for l below
/// `counts[a] * (pitch / step)`.
#[derive(Clone, Copy, PartialEq, Eq)]
pub struct Grid {
    pub origin: [i32; 3],
    pub pitch: i32,
    pub step: i32,
    pub counts: [u32; 3],
}

impl Model for Grid {
    ghost use Rattle.ray_grid.specs.Grids.{GridSize};
    ghost use Rattle.ray_grid.specs.Ranges.{IsGrid};

    ghost Value = { GridSize };

    ghost view = { λ g. record { origin = g.origin; pitch = g.pitch; step = g.step; counts = g.counts } };

    ghost invariant = { λ g. IsGrid record { origin = g.origin; pitch = g.pitch; step = g.step; counts = g.counts } };

    ghost inverse = { λ g. record { origin = g.origin; pitch = g.pitch; step = g.step; counts = g.counts } };
}

impl Grid {
    ghost use Rattle.std.specs.Prelude.{◌≡◌, ◌*◌, ◌<◌, ◌≤◌, unsigned_abs, Contains};
    ghost use Rattle.ray_grid.specs.Ranges.{most_nodes, most_per_node};
    ghost use Rattle.ray_grid.specs.Lattice.{IsRay, nodes_of, points_of, per_node, node_at, place_at, point_of};
    ghost use Rattle.space.specs.Ranges.{IsPoint, metre};
    ghost use Rattle.ray_grid.specs.Points.{lattice_of};

    /// How many points a ray of the family has.
    pub fn points(&self, family: Family) -> u32
        ensures { result ≡ points_of self.now family }
    {
        self.nodes(family.axis()) * self.per_node()
    }

    /// The coordinates of point `l` of a ray.
    pub fn point(&self, ray: &Ray, l: u32) -> [i32; 3]
        requires ray { IsRay self.now ray.now }
        requires point { l < points_of self.now ray.now.family }
        ensures position { result ≡ point_of self.now ray.now l }
        // It lies within a metre of the origin, so it may be marked.
        ensures near { IsPoint result }
        ensures listed { let position = point_of self.now ray.now l in
            Contains (lattice_of self.now) record { ray = ray.now; l = l; position = position } }
    {
        match ray.family {
            Family::X => [
                self.place_on(0, l),
                self.node(1, ray.i),
                self.node(2, ray.j),
            ],
            Family::Y => [
                self.node(0, ray.i),
                self.place_on(1, l),
                self.node(2, ray.j),
            ],
            Family::Z => [
                self.node(0, ray.i),
                self.node(1, ray.j),
                self.place_on(2, l),
            ],
        }
    }

    /// How many nodes an axis has.
    pub(crate) fn nodes(&self, axis: usize) -> u32
        requires { axis < 3 }
        ensures nodes { result ≡ nodes_of self.now axis }
        ensures few { result ≤ most_nodes }
    {
        self.counts[axis]
    }

    /// How many points a ray has for each node that it passes.
    pub(crate) fn per_node(&self) -> u32
        ensures points { result ≡ per_node self.now }
        ensures few { result ≤ most_per_node }
    {
        self.pitch.unsigned_abs() / self.step.unsigned_abs()
    }

    /// The coordinate of a node.
    pub(crate) fn node(&self, axis: usize, n: u32) -> i32
        requires axis { axis < 3 }
        requires node { n < nodes_of self.now axis }
        ensures value { result ≡ node_at self.now axis n }
        ensures near { unsigned_abs result ≤ metre }
    {
        self.origin[axis] + n as i32 * self.pitch
    }

    /// The coordinate along its ray of a point.
    pub(crate) fn place_on(&self, axis: usize, l: u32) -> i32
        requires axis { axis < 3 }
        requires point { l < nodes_of self.now axis * per_node self.now }
        ensures value { result ≡ place_at self.now axis l }
        ensures near { unsigned_abs result ≤ metre }
    {
        self.origin[axis] + l as i32 * self.step
    }
}
