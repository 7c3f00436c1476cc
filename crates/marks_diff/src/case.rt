ghost use Rattle.std.specs.Prelude.{◌≤◌};
ghost use Rattle.ray_grid.specs.Lattice.{IsRay};

use axis_cells::Sweep;
use ray_grid::{Grid, Ray};

/// One ray of a grid, one move, and how closely they are marked.
#[derive(Drop)]
pub(crate) struct Case {
    pub grid: Grid,
    pub ray: Ray,
    pub sweep: Sweep,
    pub depth: u32,
    ghost on_grid: { IsRay grid ray },
    ghost deep: { depth ≤ 10 },
}
