ghost use Rattle.std.specs.Prelude.{◌≤◌};
ghost use Rattle.wanted_marks.specs.Rays.{move_of};
ghost use Rattle.wanted_marks.specs.Ready.{IsReadyMove};

use crate::axis_forms::AxisForms;
use crate::grid_forms::GridForms;
use crate::limits::{greatest_diameter, limits_of};
use crate::long::is_long;
use crate::slab_table::SlabTable;
use axis_cells::{Sweep, cells_of};
use cutter_slabs::Stacks;
use ray_grid::Grid;

/// What is computed of a move once, and is the same for all points that it marks: how the axis turns, the limits beyond which a point
/// is beside every outer slab throughout the move, whether it is long, where to look from for the inner slab at a point's height at the
/// last sample, and the forms of the points of a grid. A move takes some 1,460 bytes for it, of which the forms are 1,150.
#[derive(Drop)]
pub struct ReadyMove {
    pub(crate) scale: u32,
    pub(crate) axis_forms: AxisForms,
    pub(crate) limits: [i128; 5],
    pub(crate) is_long: bool,
    pub(crate) table: SlabTable,
    pub(crate) forms: GridForms,
}

impl ReadyMove {
    /// Of a motion and the stacks of a cutter, for marks at the samples and on the cells of a depth. The strips of the grid are marked
    /// faster by it than those of another.
    pub fn new(sweep: &Sweep, stacks: &Stacks, depth: u32, grid: &Grid) -> ReadyMove
        requires { depth ≤ 10 }
        ensures { IsReadyMove result (move_of stacks.now sweep.now depth) }
    {
        // Reading a field of the sweep gives the prover its invariant; the stack's invariant says that sure points are possible.
        let _valid = &sweep.from;
        let inner = stacks.inner();
        let scale = cells_of(depth);
        let axis_forms = AxisForms::of_sweep(sweep, scale);
        let diameter = greatest_diameter(stacks.outer());
        let limits = limits_of(&axis_forms.n, scale, diameter);
        let table = SlabTable::of_slabs(inner, scale, axis_forms.last_square());
        let forms = GridForms::of_grid(grid, sweep, &axis_forms, scale);
        ReadyMove {
            scale,
            axis_forms,
            limits,
            is_long: is_long(sweep, diameter),
            table,
            forms,
        }
    }
}
