ghost use Rattle.std.specs.Prelude.{◌≡◌, IfOk};
ghost use Rattle.report_text.specs.Selftest.{selftest_of};

use crate::counted::write_counted;
use crate::verdict::{write_total, write_verdict};
use job_counts::Totals;
use std::alloc::Global;
use vf_io::NoMemory;
use vf_text::Page;

/// The text of a generated job's check: the number that it was generated from, its totals, and whether it is clean.
pub fn selftest_text(
    alloc: Global,
    number: u32,
    totals: &Totals,
    clean: bool,
) -> Result<Vec<u8>, NoMemory>
    ensures { IfOk result (λ v. v.items ≡ selftest_of number totals.now clean) }
{
    let mut page = Page::new(alloc);
    write_counted(&mut page, b"clverify selftest ", number as usize)?;
    page.end_line()?;
    write_total(&mut page, totals)?;
    write_verdict(&mut page, clean)?;
    Ok(page.into_vec())
}
