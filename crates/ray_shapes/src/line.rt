ghost use Rattle.ray_shapes.specs.Sizes.{IsLine};

use ray_grid::{Family, Grid, Ray};

/// A ray of a grid as a line: its first point, and how far its points are apart on its axis.
#[derive(Clone, Copy)]
pub struct Line {
    pub first: [i32; 3],
    pub family: Family,
    pub step: i32,
    pub points: u32,
    ghost in_range: { IsLine first step points },
}

impl Line {
    ghost use Rattle.std.specs.Prelude.{◌≡◌, ℕ};
    ghost use Rattle.ray_grid.specs.Lattice.{IsRay, points_of, point_of};
    ghost use Rattle.ray_shapes.specs.OnLine.{point_on};

    /// The line of a ray of the grid.
    pub fn of(grid: &Grid, ray: &Ray) -> Line
        requires { IsRay grid.now ray.now }
        ensures points { result.points ≡ points_of grid.now ray.now.family }
        ensures position { (l : ℕ) → point_on result l ≡ point_of grid.now ray.now l }
    {
        let step = grid.step;
        Line {
            first: grid.point(ray, 0),
            family: ray.family,
            step,
            points: grid.points(ray.family),
        }
    }
}
