ghost use Rattle.std.specs.Prelude.{◌≡◌, IfOk};
ghost use Rattle.cert_lines.specs.Certificates.{IsInRange};
ghost use Rattle.ray_shapes.specs.Sets.{GivesSolid};
ghost use Rattle.cert_boxes.specs.Tasks.{cert_task};
ghost use Rattle.cert_boxes.specs.Untouched.{IsUntouched};
ghost use Rattle.cert_boxes.specs.Verdicts.{verdict_of};

use crate::boxes::first_standing;
use crate::laws::acceptance_law;
use crate::row::rows_of;
use crate::search::first_missed;
use crate::verdict::Verdict;
use axis_cells::Sweep;
use cert_lines::Cert;
use cutter_slabs::{Cutter, Stacks};
use ray_grid::{Grid, Ray};
use ray_shapes::RayShape;
use std::alloc::Global;
use vf_io::NoMemory;
use vf_spans::Spans;

/// Judges a certificate that a move of a cutter touches no point of the part or of the fixtures. Fails only when out of memory.
///
/// Where it is accepted, the upper cutter meets no lattice point of either at any rational time of the move. The slabs are those of
/// the certificate, and the reach is that of the move's own cutter.
pub fn check<A: Fn(&Ray) -> Result<Spans, NoMemory>, B: Fn(&Ray) -> Result<Spans, NoMemory>>(
    alloc: Global,
    cert: &Cert,
    sweep: &Sweep,
    cutter: Cutter,
    grid: &Grid,
    part: &RayShape<A>,
    fixture: &RayShape<B>,
) -> Result<Verdict, NoMemory>
    requires ranges { IsInRange grid.now cert.now }
    requires part { GivesSolid A.Fn grid.now part.now }
    requires fixture { GivesSolid B.Fn grid.now fixture.now }
    ensures verdict { let task = cert_task sweep.now cutter grid.now part.now.solid.value fixture.now.solid.value in
        IfOk result (λ verdict. verdict ≡ verdict_of task cert.now) }
    ensures untouched { let task = cert_task sweep.now cutter grid.now part.now.solid.value fixture.now.solid.value in
        IfOk result (λ verdict. verdict ≡ Verdict.Accepted → IsUntouched task) }
{
    let stacks = Stacks::new(alloc, cutter, cert.slabs)?;
    acceptance_law(sweep, &stacks);
    let cells = cert.cells.as_slice();
    let standing = first_standing(sweep, grid, stacks.outer(), cells);
    match standing {
        Some(line) => return Ok(Verdict::BoxStands { line }),
        None => {}
    }
    let mut rows = rows_of(alloc, grid, cells)?;
    let missed = first_missed(alloc, sweep, &stacks, part, fixture, rows.as_mut_slice())?;
    match missed {
        Some((ray, l)) => Ok(Verdict::Uncovered { ray, l }),
        None => Ok(Verdict::Accepted),
    }
}
