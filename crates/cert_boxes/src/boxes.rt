ghost use Rattle.std.specs.Prelude.{◌≡◌, true, not, IsTrue, All};
ghost use Rattle.std.specs.List.{find, list_all};
ghost use Rattle.std.specs.Option.{option_map};
ghost use Rattle.cutter_slabs.specs.Rising.{IsRising};
ghost use Rattle.cert_lines.specs.Certificates.{is_cell_on};
ghost use Rattle.cert_boxes.specs.Holding.{IsLineInRange, are_slabs_excluded};

use crate::forms::CellForms;
use crate::test::BoxTest;
use axis_cells::{Sweep, cells_of};
use bern_form::Slab;
use cert_lines::CertCell;
use ray_grid::Grid;

/// Whether the box of a line excludes each of slabs that rise: the ray's points from a on and below b, during its cell of the move's
/// time.
pub fn excludes_all(sweep: &Sweep, grid: &Grid, slabs: &[Slab], cell: &CertCell) -> bool
    requires rising { IsRising slabs.now }
    requires cell { IsLineInRange grid.now cell.now }
    ensures { result ≡ are_slabs_excluded sweep.now grid.now slabs.now cell.now }
{
    let scale = cells_of(cell.q);
    let p = grid.point(&cell.ray, cell.a);
    let q = grid.point(&cell.ray, cell.b - 1);
    let forms = CellForms::of(sweep, &p, &q, cell.k, scale);
    if forms.are_behind() {
        return true;
    }
    BoxTest::of_forms(&forms, scale).excludes_all(slabs)
}

/// The number of the first line whose box doesn't exclude some slab, of slabs that rise.
pub fn first_standing(sweep: &Sweep, grid: &Grid, slabs: &[Slab], cells: &[CertCell]) -> Option<u64>
    requires rising { IsRising slabs.now }
    requires cells { list_all (is_cell_on grid.now) cells.now ≡ true }
    ensures { result
        ≡ option_map (λ cell. cell.line) (find (λ cell. not (are_slabs_excluded sweep.now grid.now slabs.now cell)) cells.now) }
{
    for cell in cells {
        if !excludes_all(sweep, grid, slabs, cell) {
            return Some(cell.line);
        }
    }
    None
}
