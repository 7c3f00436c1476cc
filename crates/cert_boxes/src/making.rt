ghost use Rattle.std.specs.Prelude.{◌≡◌, ◌↔◌, ◌<◌, ◌≤◌, true, None, IfOk, IfSome, length};
ghost use Rattle.cert_lines.specs.Certificates.{IsInRange};
ghost use Rattle.cert_lines.specs.Spelling.{AreAtTheirLines};
ghost use Rattle.ray_grid.specs.Lattice.{IsRay};
ghost use Rattle.ray_grid.specs.Points.{rays_of};
ghost use Rattle.ray_grid.specs.Strips.{strip_at, strips_of};
ghost use Rattle.ray_shapes.specs.Sets.{GivesSolid};
ghost use Rattle.cert_boxes.specs.Drafts.{AddsCells};
ghost use Rattle.cert_boxes.specs.Made.{may_touch};
ghost use Rattle.cert_boxes.specs.Making.{cells_of_ray, cells_of_rays, cert_due, whole_box};
ghost use Rattle.cert_boxes.specs.Tasks.{cert_task};
ghost use Rattle.cert_boxes.specs.Untouched.{IsUntouched};
ghost use Rattle.cert_boxes.specs.Verdicts.{verdict_of};

use crate::draft::Draft;
use crate::laws::acceptance_law;
use crate::search::wanted_on;
use crate::tree::add_box;
use crate::verdict::Verdict;
use axis_cells::Sweep;
use cert_lines::{Cert, CertCell};
use cutter_slabs::{Cutter, Stacks};
use ray_grid::{Grid, Ray};
use ray_shapes::RayShape;
use std::alloc::Global;
use vf_io::NoMemory;
use vf_spans::Spans;

/// The whole ray over the whole time, before its line has a number.
fn whole_box(ray: Ray, points: u32) -> CertCell
    ensures { result ≡ whole_box ray points }
{
    CertCell {
        line: 0,
        ray,
        q: 0,
        k: 0,
        a: 0,
        b: points,
    }
}

/// Adds the cells of a ray, and answers whether there are any.
fn add_ray<A: Fn(&Ray) -> Result<Spans, NoMemory>, B: Fn(&Ray) -> Result<Spans, NoMemory>>(
    alloc: Global,
    draft: &mut Draft,
    sweep: &Sweep,
    stacks: &Stacks,
    depth: u32,
    part: &RayShape<A>,
    fixture: &RayShape<B>,
    ray: &Ray,
) -> Result<bool, NoMemory>
    requires depth { depth ≤ 10 }
    requires ray { IsRay part.now.grid ray.now }
    requires part { GivesSolid A.Fn part.now.grid part.now }
    requires fixture { GivesSolid B.Fn part.now.grid fixture.now }
    ensures { let task = cert_task sweep.now stacks.now.cutter part.now.grid part.now.solid.value fixture.now.solid.value in
        IfOk result (λ whole. AddsCells (cells_of_ray task stacks.now.slabs depth ray.now) draft.old draft.new whole) }
{
    let wanted = wanted_on(alloc, sweep, stacks, part, fixture, ray)?;
    let cell = whole_box(*ray, wanted.bound());
    add_box(
        draft,
        sweep,
        &part.grid,
        stacks.outer(),
        depth,
        &wanted,
        cell,
    )
}

/// Adds the cells of a strip's rays, and answers whether each has them.
fn add_strip<A: Fn(&Ray) -> Result<Spans, NoMemory>, B: Fn(&Ray) -> Result<Spans, NoMemory>>(
    alloc: Global,
    draft: &mut Draft,
    sweep: &Sweep,
    stacks: &Stacks,
    depth: u32,
    part: &RayShape<A>,
    fixture: &RayShape<B>,
    strip: u32,
) -> Result<bool, NoMemory>
    requires depth { depth ≤ 10 }
    requires strip { strip < length (strips_of part.now.grid) }
    requires part { GivesSolid A.Fn part.now.grid part.now }
    requires fixture { GivesSolid B.Fn part.now.grid fixture.now }
    ensures { let task = cert_task sweep.now stacks.now.cutter part.now.grid part.now.solid.value fixture.now.solid.value in
        let rays = strip_at part.now.grid strip in
        IfOk result (λ whole. AddsCells (cells_of_rays task stacks.now.slabs depth rays) draft.old draft.new whole) }
{
    for n in 0..part.grid.strip_len(strip) {
        let ray = part.grid.strip_ray(strip, n);
        let is_whole = add_ray(alloc, draft, sweep, stacks, depth, part, fixture, &ray)?;
        if !is_whole {
            return Ok(false);
        }
    }
    Ok(true)
}

/// Adds the cells of all rays, strip by strip, and answers whether each has them.
fn add_strips<A: Fn(&Ray) -> Result<Spans, NoMemory>, B: Fn(&Ray) -> Result<Spans, NoMemory>>(
    alloc: Global,
    draft: &mut Draft,
    sweep: &Sweep,
    stacks: &Stacks,
    depth: u32,
    part: &RayShape<A>,
    fixture: &RayShape<B>,
) -> Result<bool, NoMemory>
    requires depth { depth ≤ 10 }
    requires part { GivesSolid A.Fn part.now.grid part.now }
    requires fixture { GivesSolid B.Fn part.now.grid fixture.now }
    ensures { let task = cert_task sweep.now stacks.now.cutter part.now.grid part.now.solid.value fixture.now.solid.value in
        let rays = rays_of part.now.grid in
        IfOk result (λ whole. AddsCells (cells_of_rays task stacks.now.slabs depth rays) draft.old draft.new whole) }
{
    for strip in 0..part.grid.strips() {
        let is_whole = add_strip(alloc, draft, sweep, stacks, depth, part, fixture, strip)?;
        if !is_whole {
            return Ok(false);
        }
    }
    Ok(true)
}

/// Makes the certificate that a move of a cutter touches no point of the part or of the fixtures; none where some lattice point of them
/// is possible for the move, with the cutter in `slabs` slabs, from 1 to 256, and the move in 2^`depth` cells, `depth` at most 10. Fails
/// only when out of memory.
///
/// It goes over the rays in order and takes each point in reach that has to be covered. Ray by ray the box of all of these over the
/// whole time is tested, and where some slab is left on it its halves along the ray; those of one point are halved in time.
pub fn make<A: Fn(&Ray) -> Result<Spans, NoMemory>, B: Fn(&Ray) -> Result<Spans, NoMemory>>(
    alloc: Global,
    sweep: &Sweep,
    cutter: Cutter,
    slabs: u32,
    depth: u32,
    grid: &Grid,
    part: &RayShape<A>,
    fixture: &RayShape<B>,
) -> Result<Option<Cert>, NoMemory>
    requires some { 1 ≤ slabs }
    requires few { slabs ≤ 256 }
    requires depth { depth ≤ 10 }
    requires part { GivesSolid A.Fn grid.now part.now }
    requires fixture { GivesSolid B.Fn grid.now fixture.now }
    ensures due { let task = cert_task sweep.now cutter grid.now part.now.solid.value fixture.now.solid.value in
        IfOk result (λ made. made ≡ cert_due task slabs depth) }
    // A certificate that is given is accepted by `check`.
    ensures accepted { let task = cert_task sweep.now cutter grid.now part.now.solid.value fixture.now.solid.value in
        IfOk result (λ made. IfSome made (λ cert. verdict_of task cert ≡ Verdict.Accepted)) }
    ensures untouched { let task = cert_task sweep.now cutter grid.now part.now.solid.value fixture.now.solid.value in
        IfOk result (λ made. IfSome made (λ cert. IsUntouched task)) }
    ensures ranges { IfOk result (λ made. IfSome made (IsInRange grid.now)) }
    // Each cell's `line` is the one on which it stands in the text of the certificate.
    ensures lines { IfOk result (λ made. IfSome made (λ cert. AreAtTheirLines 3 None cert.cells)) }
    ensures none { let task = cert_task sweep.now cutter grid.now part.now.solid.value fixture.now.solid.value in
        IfOk result (λ made. (made ≡ None) ↔ (may_touch task slabs depth ≡ true)) }
{
    let stacks = Stacks::new(alloc, cutter, slabs)?;
    acceptance_law(sweep, &stacks);
    let mut draft = Draft::new(alloc);
    let is_whole = add_strips(alloc, &mut draft, sweep, &stacks, depth, part, fixture)?;
    if !is_whole {
        return Ok(None);
    }
    Ok(Some(Cert {
        slabs,
        cells: draft.cells,
    }))
}
