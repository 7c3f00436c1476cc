ghost use Rattle.std.specs.Prelude.{◌≡◌, IfOk};
ghost use Rattle.std.specs.Fn.{FnReturnsAt};
ghost use Rattle.ray_grid.specs.Lattice.{IsRay};
ghost use Rattle.ray_shapes.specs.Sets.{Gives, GivesSolid, HoldsPointsOf, in_solid};

use crate::solid::Solid;
use ray_grid::{Grid, Ray};
use std::snapshot::Snapshot;
use vf_io::NoMemory;
use vf_spans::Spans;

/// A closure that answers, on each ray of a grid, the points of a solid there. The solid itself stays where it is: what is kept of it
/// takes no bytes, and only clauses read it.
///
/// What it answers is known by the fact `GivesSolid`, which holds where the value is made, and is the condition of each function that
/// takes one.
#[derive(Drop)]
pub struct RayShape<F> {
    pub grid: Grid,
    pub solid: Snapshot<Solid>,
    pub source: F,
}

impl<F: Fn(&Ray) -> Result<Spans, NoMemory>> RayShape<F> {
    /// Keeps the closure, for the grid and the solid that it stands for.
    pub fn new(grid: Grid, solid: &Solid, source: F) -> RayShape<F>
        requires callable { (ray : _) → IsRay grid ray.now → F.pre source ray }
        requires gives { Gives (FnReturnsAt F.Fn source) grid solid.now }
        ensures solid { result.solid.value ≡ solid.now }
        ensures gives { GivesSolid F.Fn grid result }
        ensures own { GivesSolid F.Fn result.grid result }
    {
        RayShape {
            grid,
            solid: Snapshot::of(solid),
            source,
        }
    }

    /// The solid's points on a ray of the grid.
    pub fn fill(&self, ray: &Ray) -> Result<Spans, NoMemory>
        requires gives { GivesSolid F.Fn self.now.grid self.now }
        requires ray { IsRay self.now.grid ray.now }
        ensures { IfOk result (HoldsPointsOf self.now.grid ray.now (in_solid self.now.solid.value self.now.grid)) }
    {
        (self.source)(ray)
    }
}
