ghost use Rattle.std.specs.Prelude.{◌≡◌, ℕ, ◌-◌, ◌<◌};
ghost use Rattle.space.specs.Ranges.{IsPoint, IsWithin};
ghost use Rattle.ray_grid.specs.declared.ray.Ray.{Ray};
ghost use Rattle.ray_grid.specs.Lattice.{IsRay, point_of, points_of};
ghost use Rattle.sweep_boxes.specs.Boxes.{IsInBox};
ghost use Rattle.sweep_boxes.specs.Limits.{place_limit};

use ray_grid::{Family, Grid, Ray};
use sweep_boxes::PointBox;

/// The last point of the first ray of a family.
fn last_point(grid: &Grid, family: Family) -> [i32; 3]
    ensures value { result ≡ point_of grid.now (record { family = family; i = 0; j = 0 }) (points_of grid.now family - 1) }
    ensures near { IsPoint result }
{
    // Reading a field of the grid gives the prover its invariant.
    let _valid = &grid.origin;
    let points = grid.points(family);
    grid.point(&Ray { family, i: 0, j: 0 }, points - 1)
}

/// The box from the first to the last point along each axis: every point of the lattice lies in it.
pub(crate) fn bounds(grid: &Grid) -> PointBox
    ensures low { IsWithin place_limit result.low }
    ensures high { IsWithin place_limit result.high }
    ensures holds { (ray : Ray) (l : ℕ) → IsRay grid.now ray → l < points_of grid.now ray.family
        → IsInBox result (point_of grid.now ray l) }
{
    let x = last_point(grid, Family::X);
    let y = last_point(grid, Family::Y);
    let z = last_point(grid, Family::Z);
    PointBox {
        low: grid.origin,
        high: [x[0], y[1], z[2]],
    }
}
