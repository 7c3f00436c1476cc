ghost use Rattle.std.specs.Prelude.{◌≡◌, ◌<◌, ◌≤◌, pos, unsigned_abs};
ghost use Rattle.space.specs.Ranges.{IsBetween, IsWithin, metre};
ghost use Rattle.space.specs.Vectors.{at};
ghost use Rattle.ray_grid.specs.Families.{ray_axis};
ghost use Rattle.ray_grid.specs.Lattice.{nodes_of, points_of};
ghost use Rattle.ray_grid.specs.Turns.{most_moved};
ghost use Rattle.setup_turn.specs.Places.{AreStepsTo, IsFound};

use crate::axes::{first_axis, ray_axis, second_axis};
use ray_grid::{Family, Grid, Ray};

/// A point of a grid: a ray, and the point's index on it.
#[derive(Clone, Copy)]
pub(crate) struct GridPoint {
    pub ray: Ray,
    pub l: u32,
}

/// The point of the grid that lies at a place, on a ray of the family. Takes constant time: three divisions.
pub(crate) fn find_point(grid: &Grid, family: Family, place: &[i32; 3]) -> Option<GridPoint>
    requires { IsWithin most_moved place.now }
    ensures { IsFound grid.now family place.now result }
{
    let l = index_at(grid, family, place)?;
    let i = node_at(grid, first_axis(family), place)?;
    let j = node_at(grid, second_axis(family), place)?;
    Some(GridPoint {
        ray: Ray { family, i, j },
        l,
    })
}

/// The node of an axis that lies where a place is on it.
fn node_at(grid: &Grid, axis: usize, place: &[i32; 3]) -> Option<u32>
    requires axis { axis < 3 }
    requires place { IsWithin most_moved place.now }
    ensures { AreStepsTo (at grid.now.origin axis) grid.now.pitch (nodes_of grid.now axis) (at place.now axis) result }
{
    steps_to(
        grid.origin[axis],
        grid.pitch,
        grid.counts[axis],
        place[axis],
    )
}

/// The index of a family's points that lie where a place is along their rays.
fn index_at(grid: &Grid, family: Family, place: &[i32; 3]) -> Option<u32>
    requires { IsWithin most_moved place.now }
    ensures { let axis = ray_axis family in
        AreStepsTo (at grid.now.origin axis) grid.now.step (points_of grid.now family) (at place.now axis) result }
{
    let axis = ray_axis(family);
    steps_to(
        grid.origin[axis],
        grid.step,
        grid.points(family),
        place[axis],
    )
}

/// How many steps of a width lead from an origin to a place, where a whole number below the count does.
fn steps_to(origin: i32, width: i32, count: u32, place: i32) -> Option<u32>
    requires origin { unsigned_abs origin ≤ metre }
    requires width { IsBetween (pos 1) (pos metre) width }
    requires place { unsigned_abs place ≤ most_moved }
    ensures { AreStepsTo origin width count place result }
{
    if place < origin {
        return None;
    }
    let gap = (place - origin).unsigned_abs();
    let width = width.unsigned_abs();
    if gap % width != 0 {
        return None;
    }
    let steps = gap / width;
    if steps < count { Some(steps) } else { None }
}
