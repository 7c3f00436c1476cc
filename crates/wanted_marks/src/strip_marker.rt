use crate::move_marker::MoveMarker;
use crate::ray_marker::RayMarker;
use crate::sheet::Sheet;
use ray_grid::{Family, Grid, Ray};
use std::marker::Model;

/// A move of a cutter, ready to mark points of the rays of one strip of a grid: those of a family with the node i.
#[derive(Drop)]
pub struct StripMarker<'a> {
    mover: &'a MoveMarker<'a>,
    grid: &'a Grid,
    family: Family,
    i: u32,
    sheet: Sheet,
}

impl<'a> Model for StripMarker<'a> {
    ghost use Rattle.wanted_marks.specs.Strips.{IsReadyStrip, StripOf};

    ghost Value = { StripOf };

    ghost view = { λ s. record { sweep = s.mover.now; grid = s.grid.now; family = s.family; i = s.i } };

    ghost invariant = { λ s. IsReadyStrip s.sheet record { sweep = s.mover.now; grid = s.grid.now; family = s.family; i = s.i } };
}

impl<'a> StripMarker<'a> {
    ghost use Rattle.std.specs.Prelude.{◌≡◌, ◌<◌};
    ghost use Rattle.ray_grid.specs.Families.{first_axis, second_axis};
    ghost use Rattle.ray_grid.specs.Lattice.{nodes_of};
    ghost use Rattle.wanted_marks.specs.Strips.{ray_at};

    pub(crate) fn new(
        mover: &'a MoveMarker<'a>,
        grid: &'a Grid,
        family: Family,
        i: u32,
    ) -> StripMarker<'a>
        requires { i < nodes_of grid.now (first_axis family) }
        ensures { result ≡ record { sweep = mover.now; grid = grid.now; family = family; i = i } }
    {
        let sheet = mover.strip_sheet(grid, family, i);
        StripMarker {
            mover,
            grid,
            family,
            i,
            sheet,
        }
    }

    /// For the points of the ray with the node j.
    pub fn on_ray(&'a self, j: u32) -> RayMarker<'a>
        requires { j < nodes_of self.now.grid (second_axis self.now.family) }
        ensures { result ≡ ray_at self.now j }
    {
        let ray = Ray {
            family: self.family,
            i: self.i,
            j,
        };
        let line = self.mover.line_on(&self.sheet, self.grid, &ray);
        RayMarker::with_line(self.mover, self.grid, ray, line)
    }
}
