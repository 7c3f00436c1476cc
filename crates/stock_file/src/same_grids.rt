ghost use Rattle.std.specs.Prelude.{◌≡◌, ◌&&◌, IsTrue};
ghost use Rattle.std.specs.Ordering.{int_eq};
ghost use Rattle.stock_file.specs.SameGrids.{has_same_counts, has_same_origin, has_same_steps, is_same_grid, is_same_point};

use crate::text::has_three_axes;
use ray_grid::Grid;

/// Whether two grids are one.
pub fn is_same_grid(a: &Grid, b: &Grid) -> bool
    ensures test { result ≡ is_same_grid a.now b.now }
    ensures same { IsTrue result → a.now ≡ b.now }
{
    has_three_axes(a);
    has_three_axes(b);
    has_same_numbers(a, b)
}

fn has_same_numbers(a: &Grid, b: &Grid) -> bool
    ensures { result ≡ is_same_grid a.now b.now }
{
    has_same_steps(a, b) && has_same_origin(a, b) && has_same_counts(a, b)
}

/// Whether two grids have the same pitch and the same step.
pub fn has_same_steps(a: &Grid, b: &Grid) -> bool
    ensures test { result ≡ has_same_steps a.now b.now }
    ensures pitch { IsTrue result → a.now.pitch ≡ b.now.pitch }
    ensures step { IsTrue result → a.now.step ≡ b.now.step }
{
    a.pitch == b.pitch && a.step == b.step
}

fn has_same_origin(a: &Grid, b: &Grid) -> bool
    ensures { result ≡ has_same_origin a.now b.now }
{
    is_same_point(&a.origin, &b.origin)
}

fn is_same_point(a: &[i32; 3], b: &[i32; 3]) -> bool
    ensures { result ≡ is_same_point a.now b.now }
{
    let [a_x, a_y, a_z] = *a;
    let [b_x, b_y, b_z] = *b;
    are_all(is_same(a_x, b_x), is_same(a_y, b_y), is_same(a_z, b_z))
}

fn are_all(x: bool, y: bool, z: bool) -> bool
    ensures { result ≡ (x && (y && z)) }
{
    x && y && z
}

fn is_same(a: i32, b: i32) -> bool
    ensures { result ≡ int_eq a b }
{
    a == b
}

fn has_same_counts(a: &Grid, b: &Grid) -> bool
    ensures { result ≡ has_same_counts a.now b.now }
{
    a.counts[0] == b.counts[0] && a.counts[1] == b.counts[1] && a.counts[2] == b.counts[2]
}
