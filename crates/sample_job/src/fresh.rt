ghost use Rattle.std.specs.Prelude.{◌≡◌, ℕ, IfOk, Some, length, slice_get};
ghost use Rattle.ray_grid.specs.Strips.{strips_of};
ghost use Rattle.ray_shapes.specs.Sets.{GivesSolid};
ghost use Rattle.strip_journal.specs.Strips.{StripOf};

use ray_grid::Ray;
use ray_shapes::{Bodies, RayShape, Solid, solid_spans};
use std::alloc::Global;
use strip_journal::Strip;
use strip_plan::Plan;
use vf_io::NoMemory;
use vf_spans::Spans;

/// The strips of a plan before the first edit, by shapes of the three bodies.
fn strips_by<A: Fn(&Ray) -> Result<Spans, NoMemory>, B: Fn(&Ray) -> Result<Spans, NoMemory>>(
    alloc: Global,
    plan: &Plan,
    stock: &RayShape<A>,
    others: &RayShape<B>,
) -> Result<Vec<Strip>, NoMemory>
    requires stock { GivesSolid A.Fn plan.now.grid stock.now }
    requires others { GivesSolid B.Fn plan.now.grid others.now }
    ensures many { IfOk result (λ strips. length strips.items ≡ length (strips_of plan.now.grid)) }
    ensures plans { IfOk result (λ strips. (k : ℕ) (s : StripOf) → slice_get strips.items k ≡ Some s → s.job.plan ≡ plan.now) }
    ensures numbers { IfOk result (λ strips. (k : ℕ) (s : StripOf) → slice_get strips.items k ≡ Some s → s.number ≡ k) }
{
    let mut strips = Vec::new(alloc);
    for number in 0..plan.grid().strips() {
        strips.push(Strip::fresh(alloc, plan, number, stock, others, others)?)?;
    }
    Ok(strips)
}

/// All strips of a plan in order, before the first edit, with this stock, no part and no fixture.
pub fn strips(alloc: Global, plan: &Plan, stock: &Bodies) -> Result<Vec<Strip>, NoMemory>
    ensures many { IfOk result (λ strips. length strips.items ≡ length (strips_of plan.now.grid)) }
    ensures plans { IfOk result (λ strips. (k : ℕ) (s : StripOf) → slice_get strips.items k ≡ Some s → s.job.plan ≡ plan.now) }
    ensures numbers { IfOk result (λ strips. (k : ℕ) (s : StripOf) → slice_get strips.items k ≡ Some s → s.number ≡ k) }
{
    let grid = plan.grid();
    let stock = &Solid::Bodies(stock.copy()?);
    let others = &Solid::Bodies(Bodies::new(Vec::new(alloc)));
    let stock = RayShape::new(
        *grid,
        stock,
        move |ray: &Ray| solid_spans(alloc, stock, grid, ray),
    );
    let others = RayShape::new(
        *grid,
        others,
        move |ray: &Ray| solid_spans(alloc, others, grid, ray),
    );
    strips_by(alloc, plan, &stock, &others)
}
