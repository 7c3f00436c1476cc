ghost use Rattle.std.specs.Prelude.{◌≡◌, ◌++◌, OnOk};
ghost use Rattle.report_text.specs.Places.{place_text};

use crate::answers::name_of_family;
use crate::counted::write_counted;
use ray_grid::Ray;
use vf_io::NoMemory;
use vf_text::Page;

/// Writes the family and the nodes of a ray, and the index of a point on it.
pub(crate) fn write_place(page: &mut Page, ray: &Ray, l: u32) -> Result<(), NoMemory>
    ensures { OnOk result (page.new ≡ page.old ++ place_text ray.now l) }
{
    page.space()?;
    page.text(name_of_family(ray.family))?;
    write_counted(page, b" ", ray.i as usize)?;
    write_counted(page, b" ", ray.j as usize)?;
    write_counted(page, b" ", l as usize)
}
