ghost use Rattle.std.specs.Prelude.{◌≡◌, ◌∷◌, ◌++◌, IfOk, OnOk, decimal};
ghost use Rattle.vf_text.specs.Blanks.{blank_space};
ghost use Rattle.cert_lines.specs.Law.{ReadsBack};
ghost use Rattle.cert_lines.specs.Spelling.{cell_line, cells_text, family_letter, is_last, is_same_family, is_same_ray};
ghost use Rattle.cert_lines.specs.Spelling.{ray_before, ray_line, slabs_line, text_of_cert};

use crate::cell::CertCell;
use crate::cert::Cert;
use ray_grid::{Family, Ray};
use std::alloc::Global;
use vf_io::NoMemory;
use vf_text::Page;

/// The text of a certificate. Where each cell's `line` is the number of its line in the text, reading the text gives the same
/// certificate.
pub fn cert_text(alloc: Global, cert: &Cert) -> Result<Vec<u8>, NoMemory>
    ensures text { IfOk result (λ bytes. bytes.items ≡ text_of_cert cert.now) }
    ensures reads_back { IfOk result (λ bytes. ReadsBack cert.now bytes.items) }
{
    let mut page = Page::new(alloc);
    page.text(b"cert 1\n")?;
    write_slabs(&mut page, cert.slabs)?;
    write_cells(&mut page, cert.cells.as_slice())?;
    page.text(b"end\n")?;
    Ok(page.into_vec())
}

fn write_slabs(page: &mut Page, slabs: u32) -> Result<(), NoMemory>
    ensures { OnOk result (page.new ≡ page.old ++ slabs_line slabs) }
{
    page.text(b"slabs")?;
    write_number(page, slabs)?;
    page.end_line()
}

/// Writes the lines of cells, with a ray line before each whose ray isn't that of the cell before.
fn write_cells(page: &mut Page, cells: &[CertCell]) -> Result<(), NoMemory>
    ensures { OnOk result (page.new ≡ page.old ++ cells_text None cells.now) }
{
    let mut last: Option<Ray> = None;
    for cell in cells {
        write_ray_before(page, last, cell.ray)?;
        write_cell(page, cell)?;
        last = Some(cell.ray);
    }
    Ok(())
}

fn write_ray_before(page: &mut Page, last: Option<Ray>, ray: Ray) -> Result<(), NoMemory>
    ensures { OnOk result (page.new ≡ page.old ++ ray_before last ray) }
{
    if is_last(last, ray) {
        return Ok(());
    }
    write_ray(page, ray)
}

fn write_ray(page: &mut Page, ray: Ray) -> Result<(), NoMemory>
    ensures { OnOk result (page.new ≡ page.old ++ ray_line ray) }
{
    page.text(b"ray ")?;
    page.text(name_of_family(ray.family))?;
    write_number(page, ray.i)?;
    write_number(page, ray.j)?;
    page.end_line()
}

fn write_cell(page: &mut Page, cell: &CertCell) -> Result<(), NoMemory>
    ensures { OnOk result (page.new ≡ page.old ++ cell_line cell.now) }
{
    page.text(b"cell")?;
    write_number(page, cell.q)?;
    write_number(page, cell.k)?;
    write_number(page, cell.a)?;
    write_number(page, cell.b)?;
    page.end_line()
}

/// Writes a space and a number.
fn write_number(page: &mut Page, n: u32) -> Result<(), NoMemory>
    ensures { OnOk result (page.new ≡ page.old ++ blank_space ∷ decimal n) }
{
    page.space()?;
    page.count(n as usize)
}

/// Whether the ray is that of the cell before.
pub fn is_last(last: Option<Ray>, ray: Ray) -> bool
    ensures { result ≡ is_last last ray }
{
    match last {
        Some(last) => is_same_ray(last, ray),
        None => false,
    }
}

fn is_same_ray(ray: Ray, other: Ray) -> bool
    ensures { result ≡ is_same_ray ray other }
{
    is_same_family(ray.family, other.family) && ray.i == other.i && ray.j == other.j
}

fn is_same_family(family: Family, other: Family) -> bool
    ensures { result ≡ is_same_family family other }
{
    match family {
        Family::X => matches!(other, Family::X),
        Family::Y => matches!(other, Family::Y),
        Family::Z => matches!(other, Family::Z),
    }
}

fn name_of_family(family: Family) -> &'static [u8]
    ensures { result.now ≡ family_letter family }
{
    match family {
        Family::X => b"X",
        Family::Y => b"Y",
        Family::Z => b"Z",
    }
}
