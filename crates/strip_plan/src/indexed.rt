ghost use Rattle.std.specs.Prelude.{◌≡◌, ℕ, ◌*◌, ◌≤◌, ◌&&◌, int_le};
ghost use Rattle.space.specs.Vectors.{at};
ghost use Rattle.ray_grid.specs.Families.{ray_axis};
ghost use Rattle.ray_grid.specs.Lattice.{per_node, place_at, point_of};
ghost use Rattle.sweep_boxes.specs.Boxes.{IsInBox};
ghost use Rattle.strip_plan.specs.IndexBoxes.{AreOnAxis, IsBetweenEnds, IsIndexed};
ghost use Rattle.strip_plan.specs.Ranges.{IsIn, IsRangeOf};

use crate::index_box::{AxisRanges, IndexBox};
use ray_grid::{Family, Grid, Ray};
use sweep_boxes::PointBox;

/// Whether a box holds any place.
fn has_place(held: &PointBox) -> bool
    ensures { result ≡ (int_le (at held.now.low 0) (at held.now.high 0)
        && (int_le (at held.now.low 1) (at held.now.high 1) && int_le (at held.now.low 2) (at held.now.high 2))) }
{
    held.low[0] <= held.high[0] && (held.low[1] <= held.high[1] && held.low[2] <= held.high[2])
}

/// How many points a ray has for each node that it passes.
fn per_node(grid: &Grid) -> u32
    ensures value { result ≡ per_node grid.now }
    ensures some { 1 ≤ result }
{
    grid.pitch.unsigned_abs() / grid.step.unsigned_abs()
}

/// The nodes among points of a ray, which has `per_node` points for each node.
fn nodes_among(points: (u32, u32), per_node: u32) -> (u32, u32)
    requires { 1 ≤ per_node }
    ensures range { (count : ℕ) → IsRangeOf (count * per_node) points → IsRangeOf count result }
    ensures has { (n : ℕ) → IsIn points (n * per_node) → IsIn result n }
{
    (points.0.div_ceil(per_node), points.1.div_ceil(per_node))
}

/// A box on the first ray of a family, which has the first nodes of the two other axes: where the box is along the ray.
fn on_first_ray(grid: &Grid, family: Family, held: &PointBox) -> PointBox
    ensures { (l : ℕ) → IsBetweenEnds held.now (ray_axis family) (place_at grid.now (ray_axis family) l)
        → IsInBox result (point_of grid.now record { family = family; i = 0; j = 0 } l) }
{
    let (low, high, first) = (held.low, held.high, grid.origin);
    match family {
        Family::X => PointBox {
            low: [low[0], first[1], first[2]],
            high: [high[0], first[1], first[2]],
        },
        Family::Y => PointBox {
            low: [first[0], low[1], first[2]],
            high: [first[0], high[1], first[2]],
        },
        Family::Z => PointBox {
            low: [first[0], first[1], low[2]],
            high: [first[0], first[1], high[2]],
        },
    }
}

/// What a box has on the axis of a family. All its rays have their points at the same places, so those of the first one decide; and
/// the nodes are among them.
fn on_axis(grid: &Grid, family: Family, held: &PointBox) -> AxisRanges
    ensures { AreOnAxis grid.now held.now family result }
{
    // Reading a field of the grid gives the prover its invariant.
    let _valid = &grid.origin;
    let line = on_first_ray(grid, family, held);
    let points = grid.window(&Ray { family, i: 0, j: 0 }, line.low, line.high, 0);
    AxisRanges {
        nodes: nodes_among(points, per_node(grid)),
        points,
    }
}

/// A box by the indices of the lattice.
pub fn indexed(grid: &Grid, held: &PointBox) -> IndexBox
    ensures { IsIndexed grid.now held.now result }
{
    if !has_place(held) {
        return IndexBox::none();
    }
    IndexBox {
        x: on_axis(grid, Family::X, held),
        y: on_axis(grid, Family::Y, held),
        z: on_axis(grid, Family::Z, held),
    }
}
