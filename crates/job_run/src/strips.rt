ghost use Rattle.std.specs.Prelude.{◌≡◌, ◌<◌, ◌≤◌, IfOk, length};
ghost use Rattle.std.specs.Thread.{IsSync};
ghost use Rattle.ray_grid.specs.Lattice.{IsRay};
ghost use Rattle.ray_grid.specs.Ranges.{IsGrid};
ghost use Rattle.ray_grid.specs.Strips.{strips_of};
ghost use Rattle.ray_shapes.specs.Sets.{GivesSolid};
ghost use Rattle.job_run.specs.Jobs.{AreOver, job_with};
ghost use Rattle.job_run.specs.Strips.{AreAt, AreFrom};

use crate::bodies::JobBodies;
use ray_grid::{Grid, Ray};
use ray_shapes::{RayShape, solid_spans};
use std::alloc::Global;
use std::thread::{Threads, join};
use strip_journal::Strip;
use strip_plan::PlanDraft;
use vf_io::NoMemory;
use vf_spans::Spans;

/// The strips of a plan from one number on and below another, before the first edit, by shapes of the three solids.
fn strips_by<
    A: Fn(&Ray) -> Result<Spans, NoMemory>,
    B: Fn(&Ray) -> Result<Spans, NoMemory>,
    C: Fn(&Ray) -> Result<Spans, NoMemory>,
>(
    alloc: Global,
    plan: &PlanDraft,
    from: u32,
    to: u32,
    stock: &RayShape<A>,
    part: &RayShape<B>,
    fixture: &RayShape<C>,
) -> Result<Vec<Strip>, NoMemory>
    requires order { from ≤ to }
    requires within { to ≤ length (strips_of plan.now.grid) }
    requires stock { GivesSolid A.Fn plan.now.grid stock.now }
    requires part { GivesSolid B.Fn plan.now.grid part.now }
    requires fixture { GivesSolid C.Fn plan.now.grid fixture.now }
    ensures { IfOk result (λ strips. AreFrom
        record {
          plan = plan.now;
          stock = stock.now.solid.value;
          part = part.now.solid.value;
          fixture = fixture.now.solid.value;
        } 0 from to strips.items) }
{
    let mut strips = Vec::with_capacity(alloc, (to - from) as usize)?;
    for number in from..to {
        strips.push(Strip::of_draft(alloc, plan, number, stock, part, fixture)?)?;
    }
    Ok(strips)
}

/// The strips of a plan from one number on and below another, before the first edit.
fn strips_between(
    alloc: Global,
    plan: &PlanDraft,
    bodies: &JobBodies,
    from: u32,
    to: u32,
) -> Result<Vec<Strip>, NoMemory>
    requires order { from ≤ to }
    requires within { to ≤ length (strips_of plan.now.grid) }
    requires over { AreOver plan.now.grid bodies.now }
    ensures { IfOk result (λ strips. AreFrom (job_with plan.now bodies.now) 0 from to strips.items) }
{
    let grid = plan.grid();
    let stock = &bodies.stock;
    let part = &bodies.part;
    let fixture = &bodies.fixture;
    let stock = RayShape::new(
        *grid,
        stock,
        move |ray: &Ray| solid_spans(alloc, stock, grid, ray),
    );
    let part = RayShape::new(
        *grid,
        part,
        move |ray: &Ray| solid_spans(alloc, part, grid, ray),
    );
    let fixture = RayShape::new(*grid, fixture, move |ray: &Ray| {
        solid_spans(alloc, fixture, grid, ray)
    });
    strips_by(alloc, plan, from, to, &stock, &part, &fixture)
}

/// How many rays the strips of a grid have from one number on and below another.
fn rays_between(grid: &Grid, from: u32, to: u32) -> u64
    requires { to ≤ length (strips_of grid.now) }
{
    let mut rays: u64 = 0;
    for number in from..to {
        rays = rays.saturating_add(u64::from(grid.strip_len(number)));
    }
    rays
}

/// The end of the first of `parts` parts, which has its share of the rays: strips of one family have more of them than those of another.
fn share_end(grid: &Grid, from: u32, to: u32, parts: u32) -> u32
    requires parts { 0 < parts }
    requires order { from ≤ to }
    requires within { to ≤ length (strips_of grid.now) }
    ensures from { from ≤ result }
    ensures to { result ≤ to }
{
    let mut share = rays_between(grid, from, to) / u64::from(parts);
    for number in from..to {
        if share == 0 {
            return number;
        }
        share = share.saturating_sub(u64::from(grid.strip_len(number)));
    }
    to
}

/// The same strips, made in `parts` parts, each in a thread of its own where one can be made.
#[cycle(parts)]
fn strips_in_parts<R: Threads + Sync>(
    rt: &R,
    alloc: Global,
    plan: &PlanDraft,
    bodies: &JobBodies,
    from: u32,
    to: u32,
    parts: u32,
) -> Result<Vec<Strip>, NoMemory>
    requires parts { 0 < parts }
    requires order { from ≤ to }
    requires within { to ≤ length (strips_of plan.now.grid) }
    requires over { AreOver plan.now.grid bodies.now }
    ensures { IfOk result (λ strips. AreFrom (job_with plan.now bodies.now) 0 from to strips.items) }
{
    if parts == 1 {
        return strips_between(alloc, plan, bodies, from, to);
    }
    let next = share_end(plan.grid(), from, to, parts);
    let others = parts - 1;
    let front = move || -> Result<Vec<Strip>, NoMemory>
        requires { (from ≤ next) × (next ≤ length (strips_of plan.now.grid)) × AreOver plan.now.grid bodies.now }
        ensures { IfOk result (λ strips. AreFrom (job_with plan.entry.now bodies.entry.now) 0 from next strips.items) }
    { strips_between(alloc, plan, bodies, from, next) };
    let back = move || -> Result<Vec<Strip>, NoMemory>
        requires { IsSync R.row × (0 < others) × (next ≤ to) × (to ≤ length (strips_of plan.now.grid))
            × AreOver plan.now.grid bodies.now }
        ensures { IfOk result (λ strips. AreFrom (job_with plan.entry.now bodies.entry.now) 0 next to strips.items) }
    { strips_in_parts(rt, alloc, plan, bodies, next, to, others) };
    let (first, rest) = join(rt, front, back);
    let mut strips = first?;
    let mut rest = rest?;
    strips.append(&mut rest)?;
    Ok(strips)
}

/// How many strips the grid of a plan has. Its numbers make one.
fn strip_count(plan: &PlanDraft) -> u32
    ensures count { result ≡ length (strips_of plan.now.grid) }
    ensures valid { IsGrid plan.now.grid }
{
    let grid = plan.grid();
    // Reading a field of the grid gives the prover its invariant.
    let _valid = &grid.origin;
    grid.strips()
}

/// The strips of a plan before the first edit, made by `workers` workers.
pub fn fresh_strips<R: Threads + Sync>(
    rt: &R,
    alloc: Global,
    plan: &PlanDraft,
    bodies: &JobBodies,
    workers: u32,
) -> Result<Vec<Strip>, NoMemory>
    requires workers { 0 < workers }
    requires over { AreOver plan.now.grid bodies.now }
    ensures { IfOk result (λ strips. AreAt plan.now (job_with plan.now bodies.now) 0 strips.items) }
{
    let count = strip_count(plan);
    strips_in_parts(rt, alloc, plan, bodies, 0, count, workers)
}
