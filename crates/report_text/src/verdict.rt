ghost use Rattle.std.specs.Prelude.{◌≡◌, ◌++◌, OnOk};
ghost use Rattle.vf_text.specs.Pages.{line};
ghost use Rattle.report_text.specs.Verdict.{points_text, total_text, verdict_text};

use crate::counted::write_counted;
use job_counts::Totals;
use vf_io::NoMemory;
use vf_text::Page;

/// Writes how many points are removed and how many possible, of how many.
pub(crate) fn write_points(page: &mut Page, totals: &Totals) -> Result<(), NoMemory>
    ensures { OnOk result (page.new ≡ page.old ++ points_text totals.now) }
{
    write_counted(page, b" removed ", totals.removed as usize)?;
    write_counted(page, b" possible ", totals.possible as usize)?;
    write_counted(page, b" of ", totals.of as usize)
}

/// Writes the line of the totals.
pub(crate) fn write_total(page: &mut Page, totals: &Totals) -> Result<(), NoMemory>
    ensures { OnOk result (page.new ≡ page.old ++ line (total_text totals.now)) }
{
    page.text(b"total")?;
    write_points(page, totals)?;
    page.end_line()
}

/// Writes the line of the verdict.
pub(crate) fn write_verdict(page: &mut Page, clean: bool) -> Result<(), NoMemory>
    ensures { OnOk result (page.new ≡ page.old ++ line (verdict_text clean)) }
{
    page.text(if clean {
        b"verdict clean"
    } else {
        b"verdict findings"
    })?;
    page.end_line()
}
