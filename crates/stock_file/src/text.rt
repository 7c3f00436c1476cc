ghost use Rattle.std.specs.Prelude.{◌≡◌, [], ◌∷◌, ◌++◌, OnOk, decimal, length};
ghost use Rattle.std.specs.Fmt.{signed_decimal};
ghost use Rattle.vf_text.specs.Blanks.{blank_space};
ghost use Rattle.vf_text.specs.Pages.{numbers};
ghost use Rattle.vf_spans.specs.Members.{ranges_of};
ghost use Rattle.ray_grid.specs.Points.{rays_of};
ghost use Rattle.ray_grid.specs.Ranges.{IsGrid};
ghost use Rattle.cert_lines.specs.Spelling.{family_letter};
ghost use Rattle.stock_file.specs.Spelling.{range_bounds, counts_spelt, grid_line, ranges_line, rays_text};

use crate::rays::{FIRST_RAY, ray_after};
use ray_grid::{Family, Grid, Ray};
use vf_io::NoMemory;
use vf_spans::Spans;
use vf_text::Page;

/// Writes the grid line.
pub(crate) fn write_grid(page: &mut Page, grid: &Grid) -> Result<(), NoMemory>
    ensures { OnOk result (page.new ≡ page.old ++ grid_line grid.now) }
{
    has_three_axes(grid);
    page.text(b"grid")?;
    page.point(&grid.origin)?;
    write_steps(page, grid)?;
    write_counts(page, &grid.counts)?;
    page.end_line()
}

/// A grid has three axes, and its numbers make one: a contract, with nothing to run.
pub fn has_three_axes(grid: &Grid)
    ensures origin { length grid.now.origin ≡ 3 }
    ensures counts { length grid.now.counts ≡ 3 }
    ensures valid { IsGrid grid.now }
{
    // Reading a field of the grid gives the prover its invariant.
    let _valid = &grid.origin;
}

/// Writes the distance of a grid's nodes, and that of the points along a ray.
fn write_steps(page: &mut Page, grid: &Grid) -> Result<(), NoMemory>
    ensures { OnOk result (page.new ≡ page.old ++ numbers (grid.now.pitch ∷ grid.now.step ∷ [])) }
{
    write_signed(page, grid.pitch)?;
    write_signed(page, grid.step)
}

/// Writes three counts, each with a space before it.
fn write_counts(page: &mut Page, counts: &[u32; 3]) -> Result<(), NoMemory>
    ensures { OnOk result (page.new ≡ page.old ++ counts_spelt counts.now) }
{
    let [x, y, z] = *counts;
    write_number(page, x)?;
    write_number(page, y)?;
    write_number(page, z)
}

/// Writes the lines of all rays.
pub(crate) fn write_rays(page: &mut Page, grid: &Grid, sets: &[Spans]) -> Result<(), NoMemory>
    requires { length sets.now ≡ length (rays_of grid.now) }
    ensures { OnOk result (page.new ≡ page.old ++ rays_text (rays_of grid.now) sets.now) }
{
    // Reading a field of the grid gives the prover its invariant.
    let _valid = &grid.origin;
    let mut ray = FIRST_RAY;
    for set in sets {
        write_ray(page, &ray, set)?;
        ray = ray_after(grid, &ray);
    }
    Ok(())
}

/// Writes the line of a ray, unless its set is empty.
fn write_ray(page: &mut Page, ray: &Ray, set: &Spans) -> Result<(), NoMemory>
    ensures { OnOk result (page.new ≡ page.old ++ ranges_line ray.now (ranges_of set.now)) }
{
    if set.ranges() == 0 {
        return Ok(());
    }
    page.text(b"ray ")?;
    page.text(name_of_family(ray.family))?;
    write_number(page, ray.i)?;
    write_number(page, ray.j)?;
    write_ranges(page, set)?;
    page.end_line()
}

/// Writes the bounds of a set's ranges.
fn write_ranges(page: &mut Page, set: &Spans) -> Result<(), NoMemory>
    ensures { OnOk result (page.new ≡ page.old ++ counts_spelt (range_bounds (ranges_of set.now))) }
{
    for n in 0..set.ranges() {
        let (lo, hi) = set.range(n);
        write_number(page, lo)?;
        write_number(page, hi)?;
    }
    Ok(())
}

/// Writes a space and a number.
fn write_number(page: &mut Page, n: u32) -> Result<(), NoMemory>
    ensures { OnOk result (page.new ≡ page.old ++ blank_space ∷ decimal n) }
{
    page.space()?;
    page.count(n as usize)
}

/// Writes a space and a number that may be below zero.
fn write_signed(page: &mut Page, z: i32) -> Result<(), NoMemory>
    ensures { OnOk result (page.new ≡ page.old ++ blank_space ∷ signed_decimal z) }
{
    page.space()?;
    page.number(z)
}

fn name_of_family(family: Family) -> &'static [u8]
    ensures { result.now ≡ family_letter family }
{
    match family {
        Family::X => b"X",
        Family::Y => b"Y",
        Family::Z => b"Z",
    }
}
