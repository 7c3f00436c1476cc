ghost use Rattle.std.specs.Prelude.{◌≡◌, ◌≤◌, length};
ghost use Rattle.ray_grid.specs.Families.{first_axis, second_axis};
ghost use Rattle.ray_grid.specs.Lattice.{IsRay, is_ray_on, nodes_of};
ghost use Rattle.ray_grid.specs.Points.{rays_of};
ghost use Rattle.stock_file.specs.Rays.{family_after, ray_after};

use ray_grid::{Family, Grid, Ray};

/// The first ray of a grid.
pub const FIRST_RAY: Ray = Ray {
    family: Family::Z,
    i: 0,
    j: 0,
};

/// How many rays a grid has.
pub fn count_rays(grid: &Grid) -> u32
    ensures count { result ≡ length (rays_of grid.now) }
    ensures few { result ≤ 480000 }
{
    let [x, y, z] = grid.counts;
    x * y + y * z + x * z
}

/// How many nodes `i` the rays of a family have.
fn first_nodes(grid: &Grid, family: Family) -> u32
    ensures nodes { result ≡ nodes_of grid.now (first_axis family) }
    ensures few { result ≤ 400 }
{
    match family {
        Family::X => grid.counts[1],
        Family::Y | Family::Z => grid.counts[0],
    }
}

/// How many nodes `j` the rays of a family have.
fn second_nodes(grid: &Grid, family: Family) -> u32
    ensures nodes { result ≡ nodes_of grid.now (second_axis family) }
    ensures few { result ≤ 400 }
{
    match family {
        Family::X | Family::Y => grid.counts[2],
        Family::Z => grid.counts[1],
    }
}

/// Whether the ray's nodes are nodes of the grid.
pub(crate) fn has_ray(grid: &Grid, ray: &Ray) -> bool
    ensures { result ≡ is_ray_on grid.now ray.now }
{
    ray.i < first_nodes(grid, ray.family) && ray.j < second_nodes(grid, ray.family)
}

fn family_after(family: Family) -> Family
    ensures { result ≡ family_after family }
{
    match family {
        Family::Z => Family::X,
        Family::X => Family::Y,
        Family::Y => Family::Z,
    }
}

/// The ray after a ray, in the order of strips and rays; after the last one comes the first.
pub fn ray_after(grid: &Grid, ray: &Ray) -> Ray
    requires { IsRay grid.now ray.now }
    ensures { result ≡ ray_after grid.now ray.now }
{
    let Ray { family, i, j } = *ray;
    let (first, second) = (first_nodes(grid, family), second_nodes(grid, family));
    if j + 1 < second {
        return Ray {
            family,
            i,
            j: j + 1,
        };
    }
    if i + 1 < first {
        return Ray {
            family,
            i: i + 1,
            j: 0,
        };
    }
    Ray {
        family: family_after(family),
        i: 0,
        j: 0,
    }
}
