ghost use Rattle.std.specs.Prelude.{IfOk};
ghost use Rattle.ray_grid.specs.Lattice.{IsRay};
ghost use Rattle.ray_shapes.specs.Sets.{HoldsPointsOf, IsSolidOver, in_solid};

use crate::body::Bodies;
use crate::fill::body_spans;
use crate::ray_sets::RaySets;
use crate::turned::TurnedBodies;
use ray_grid::{Grid, Ray};
use std::alloc::Global;
use vf_io::NoMemory;
use vf_spans::Spans;

/// A set of points of a lattice, by what it is made of.
#[derive(Drop)]
pub enum Solid {
    /// The points of any of the bodies.
    Bodies(Bodies),
    /// One set for each ray of a grid, in the order of the rays.
    Listed(RaySets),
    /// The points of bodies that are turned.
    Turned(TurnedBodies),
}

/// The points of a solid on a ray of the grid. Fails only when out of memory.
pub fn solid_spans(alloc: Global, solid: &Solid, grid: &Grid, ray: &Ray) -> Result<Spans, NoMemory>
    requires solid { IsSolidOver grid.now solid.now }
    requires ray { IsRay grid.now ray.now }
    ensures { IfOk result (HoldsPointsOf grid.now ray.now (in_solid solid.now grid.now)) }
{
    match solid {
        Solid::Bodies(bodies) => body_spans(alloc, bodies.as_slice(), grid, ray),
        Solid::Listed(sets) => sets.as_slice()[grid.ray_number(ray) as usize].copy(),
        Solid::Turned(part) => body_spans(alloc, part.turned(), grid, ray),
    }
}
