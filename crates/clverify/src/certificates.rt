ghost use Rattle.std.specs.Prelude.{◌≤◌, IfOk};
ghost use Rattle.cert_lines.specs.Certificates.{IsInRange};
ghost use Rattle.cert_boxes.specs.Tasks.{cert_task};
ghost use Rattle.ray_shapes.specs.Sets.{IsSolidOver};
ghost use Rattle.clverify.specs.Certificates.{IsMadeFor, IsVerdictOn};
ghost use Rattle.clverify.specs.Commands.Certify.{cert_task_of};

use axis_cells::Sweep;
use cert_boxes::{Verdict, check, make};
use cert_lines::Cert;
use cutter_slabs::Cutter;
use job_inputs::AskedInputs;
use ray_grid::{Grid, Ray};
use ray_shapes::{RayShape, Solid, solid_spans};
use std::alloc::Global;
use vf_io::NoMemory;

/// Makes a certificate for a move that is asked for, by the slabs and the depth of its setup; none where some point of part or fixtures
/// is possible.
pub(crate) fn make_for(alloc: Global, asked: &AskedInputs) -> Result<Option<Cert>, NoMemory>
    ensures { IfOk result (IsMadeFor (cert_task_of asked.now) asked.now.task.job.plan.slabs asked.now.task.job.plan.depth) }
{
    let part = asked.part(alloc)?;
    let fixture = asked.fixture(alloc)?;
    make_over(
        alloc,
        &asked.sweep(),
        asked.cutter(),
        asked.slabs(),
        asked.depth(),
        asked.grid(),
        &part,
        &fixture,
    )
}

/// Judges a certificate for a move that is asked for.
pub(crate) fn judge_for(
    alloc: Global,
    asked: &AskedInputs,
    cert: &Cert,
) -> Result<Verdict, NoMemory>
    requires { IsInRange asked.now.task.job.plan.grid cert.now }
    ensures { IfOk result (IsVerdictOn (cert_task_of asked.now) cert.now) }
{
    let part = asked.part(alloc)?;
    let fixture = asked.fixture(alloc)?;
    judge_over(
        alloc,
        cert,
        &asked.sweep(),
        asked.cutter(),
        asked.grid(),
        &part,
        &fixture,
    )
}

/// Makes a certificate for a move, by the part and the fixtures as solids.
fn make_over(
    alloc: Global,
    sweep: &Sweep,
    cutter: Cutter,
    slabs: u32,
    depth: u32,
    grid: &Grid,
    part: &Solid,
    fixture: &Solid,
) -> Result<Option<Cert>, NoMemory>
    requires some { 1 ≤ slabs }
    requires few { slabs ≤ 256 }
    requires shallow { depth ≤ 10 }
    requires part { IsSolidOver grid.now part.now }
    requires fixture { IsSolidOver grid.now fixture.now }
    ensures { IfOk result (IsMadeFor (cert_task sweep.now cutter grid.now part.now fixture.now) slabs depth) }
{
    let part = RayShape::new(*grid, part, move |ray: &Ray| {
        solid_spans(alloc, part, grid, ray)
    });
    let fixture = RayShape::new(*grid, fixture, move |ray: &Ray| {
        solid_spans(alloc, fixture, grid, ray)
    });
    make(alloc, sweep, cutter, slabs, depth, grid, &part, &fixture)
}

/// Judges a certificate for a move, by the part and the fixtures as solids.
fn judge_over(
    alloc: Global,
    cert: &Cert,
    sweep: &Sweep,
    cutter: Cutter,
    grid: &Grid,
    part: &Solid,
    fixture: &Solid,
) -> Result<Verdict, NoMemory>
    requires ranges { IsInRange grid.now cert.now }
    requires part { IsSolidOver grid.now part.now }
    requires fixture { IsSolidOver grid.now fixture.now }
    ensures { IfOk result (IsVerdictOn (cert_task sweep.now cutter grid.now part.now fixture.now) cert.now) }
{
    let part = RayShape::new(*grid, part, move |ray: &Ray| {
        solid_spans(alloc, part, grid, ray)
    });
    let fixture = RayShape::new(*grid, fixture, move |ray: &Ray| {
        solid_spans(alloc, fixture, grid, ray)
    });
    check(alloc, cert, sweep, cutter, grid, &part, &fixture)
}
