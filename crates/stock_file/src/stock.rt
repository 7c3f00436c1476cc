ghost use Rattle.std.specs.Prelude.{◌≡◌, length, Ok, IfOk};
ghost use Rattle.ray_grid.specs.Lattice.{IsRay, points_of};
ghost use Rattle.ray_shapes.specs.Sets.{AreSetsOver};
ghost use Rattle.stock_file.specs.Reading.{stock_of};
ghost use Rattle.stock_file.specs.Saved.{IsSaved, no_sets, saved_with, set_of};
ghost use Rattle.stock_file.specs.Spelling.{saved_of};

use crate::rays::{FIRST_RAY, count_rays, ray_after};
use crate::text::{has_three_axes, write_grid, write_rays};
use ray_grid::{Grid, Ray};
use std::alloc::Global;
use std::marker::Model;
use vf_io::NoMemory;
use vf_spans::Spans;
use vf_text::Page;

/// The stock that is left on a grid: one set of points for each ray, in the order of strips and rays. It is seen as the grid and the
/// list of the sets.
#[derive(Drop)]
pub struct SavedStock {
    grid: Grid,
    rays: Vec<Spans>,
}

impl Model for SavedStock {
    ghost use Rattle.ray_shapes.specs.Sets.{AreSetsOver};
    ghost use Rattle.stock_file.specs.Saved.{Saved};

    ghost Value = { Saved };

    ghost view = { λ s. record { grid = s.grid; sets = s.rays.items } };

    ghost invariant = { λ s. AreSetsOver s.grid s.rays.items };
}

impl SavedStock {
    /// A stock with no points. It has a set for each ray, which takes no memory of its own.
    pub fn new(alloc: Global, grid: Grid) -> Result<SavedStock, NoMemory>
        ensures { IfOk result (λ stock. stock ≡ record { grid = grid; sets = no_sets grid }) }
    {
        let rays = no_sets(alloc, &grid)?;
        Ok(SavedStock { grid, rays })
    }

    /// The stock of a set for each ray of the grid, in order. It takes no memory.
    pub fn of_rays(grid: Grid, rays: Vec<Spans>) -> SavedStock
        requires { AreSetsOver grid rays.items }
        ensures { result ≡ record { grid = grid; sets = rays.items } }
    {
        SavedStock { grid, rays }
    }

    /// Puts the set of a ray of the grid in the place of the one that it had. It takes no memory.
    pub fn put(&mut self, ray: &Ray, spans: Spans)
        requires ray { IsRay self.old.grid ray.now }
        requires bound { length spans ≡ points_of self.old.grid ray.now.family }
        ensures { self.new ≡ saved_with self.old ray.now spans }
    {
        let number = self.grid.ray_number(ray) as usize;
        self.rays[number] = spans;
    }

    /// The grid that it was made with.
    pub fn grid(&self) -> Grid
        ensures { result ≡ self.now.grid }
    {
        self.grid
    }

    /// The set of a ray of the grid.
    pub fn spans(&self, ray: &Ray) -> &Spans
        requires { IsRay self.now.grid ray.now }
        ensures { result.now ≡ set_of self.now ray.now }
    {
        let number = self.grid.ray_number(ray) as usize;
        &self.rays[number]
    }

    /// The sets of the rays, in the order of strips and rays. It takes no memory.
    pub fn into_rays(self) -> Vec<Spans>
        ensures sets { result.items ≡ self.sets }
        ensures over { AreSetsOver self.grid result.items }
    {
        self.rays
    }

    /// The text of the stock. Reading the text gives the same stock.
    pub fn saved_text(&self) -> Result<Vec<u8>, NoMemory>
        ensures text { IfOk result (λ bytes. bytes.items ≡ saved_of self.now) }
        ensures reads_back { IfOk result (λ bytes. stock_of bytes.items ≡ Ok self.now) }
        ensures valid { IfOk result (λ _. IsSaved self.now) }
    {
        has_three_axes(&self.grid);
        let mut page = Page::new(*self.rays.allocator());
        page.text(b"stock 1\n")?;
        write_grid(&mut page, &self.grid)?;
        write_rays(&mut page, &self.grid, self.rays.as_slice())?;
        page.text(b"end\n")?;
        Ok(page.into_vec())
    }
}

/// An empty set for each ray of a grid.
fn no_sets(alloc: Global, grid: &Grid) -> Result<Vec<Spans>, NoMemory>
    ensures { IfOk result (λ rays. rays.items ≡ no_sets grid.now) }
{
    // Reading a field of the grid gives the prover its invariant.
    let _valid = &grid.origin;
    let count = count_rays(grid);
    let mut rays = Vec::with_capacity(alloc, count as usize)?;
    let mut ray = FIRST_RAY;
    let mut number = 0;
    while number < count {
        rays.push(Spans::new(alloc, grid.points(ray.family)))?;
        ray = ray_after(grid, &ray);
        number += 1;
    }
    Ok(rays)
}
