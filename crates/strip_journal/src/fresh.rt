ghost use Rattle.std.specs.Prelude.{◌≡◌, ◌<◌, IfOk, length};
ghost use Rattle.ray_grid.specs.Lattice.{IsRay};
ghost use Rattle.ray_grid.specs.Ranges.{IsGrid};
ghost use Rattle.ray_grid.specs.Strips.{strip_at, strips_of};
ghost use Rattle.ray_shapes.specs.Sets.{GivesSolid};
ghost use Rattle.strip_journal.specs.Fresh.{AreFreshRays, IsFreshRay, stock_points};

use ray_grid::{Grid, Ray};
use ray_shapes::RayShape;
use ray_words::{StripRays, WordRay};
use std::alloc::Global;
use vf_io::NoMemory;
use vf_spans::Spans;

/// A ray with the points of the three bodies, that no move has changed.
fn fresh_ray<
    A: Fn(&Ray) -> Result<Spans, NoMemory>,
    B: Fn(&Ray) -> Result<Spans, NoMemory>,
    C: Fn(&Ray) -> Result<Spans, NoMemory>,
>(
    alloc: Global,
    ray: &Ray,
    stock: &RayShape<A>,
    part: &RayShape<B>,
    fixture: &RayShape<C>,
) -> Result<WordRay, NoMemory>
    requires ray { IsRay stock.now.grid ray.now }
    requires stock { GivesSolid A.Fn stock.now.grid stock.now }
    requires part { GivesSolid B.Fn stock.now.grid part.now }
    requires fixture { GivesSolid C.Fn stock.now.grid fixture.now }
    ensures { IfOk result (IsFreshRay stock.now.grid ray.now stock.now.solid.value part.now.solid.value fixture.now.solid.value) }
{
    let stock = stock.fill(ray)?;
    let part = part.fill(ray)?;
    let fixture = fixture.fill(ray)?;
    Ok(WordRay::new(alloc, stock, part, fixture))
}

/// The numbers of a grid make one.
pub fn hold_grid(grid: &Grid)
    ensures { IsGrid grid.now }
{
    let _pitch = grid.pitch;
}

/// The rays of a strip, and how many stock points they have together.
pub fn fresh_rays<
    A: Fn(&Ray) -> Result<Spans, NoMemory>,
    B: Fn(&Ray) -> Result<Spans, NoMemory>,
    C: Fn(&Ray) -> Result<Spans, NoMemory>,
>(
    alloc: Global,
    grid: &Grid,
    strip: u32,
    stock: &RayShape<A>,
    part: &RayShape<B>,
    fixture: &RayShape<C>,
) -> Result<(StripRays, u32), NoMemory>
    requires strip { strip < length (strips_of grid.now) }
    requires stock { GivesSolid A.Fn grid.now stock.now }
    requires part { GivesSolid B.Fn grid.now part.now }
    requires fixture { GivesSolid C.Fn grid.now fixture.now }
    ensures rays { IfOk result (λ r. AreFreshRays grid.now strip (length (strip_at grid.now strip)) stock.now.solid.value
        part.now.solid.value fixture.now.solid.value r.0) }
    ensures stock { IfOk result (λ r. r.1 ≡ stock_points r.0) }
{
    hold_grid(grid);
    let count = grid.strip_len(strip);
    let mut rays = StripRays::with_capacity(alloc, count as usize)?;
    let mut points = 0;
    for n in 0..count {
        let ray = fresh_ray(alloc, &grid.strip_ray(strip, n), stock, part, fixture)?;
        points += ray.stock_count();
        rays.push(ray)?;
    }
    Ok((rays, points))
}
