ghost use Rattle.std.specs.Prelude.{◌≡◌, ◌++◌, OnOk};
ghost use Rattle.report_text.specs.ScriptFaults.{depths_text, script_fault_text, script_why_text};

use crate::counted::write_counted;
use edit_plan::{ScriptFault, ScriptWhy};
use vf_io::NoMemory;
use vf_text::Page;

/// Writes the line where a script's fault is, and what is wrong there.
pub(crate) fn write_script_fault(page: &mut Page, fault: &ScriptFault) -> Result<(), NoMemory>
    ensures { OnOk result (page.new ≡ page.old ++ script_fault_text fault.now) }
{
    write_counted(page, b"script line ", fault.line as usize)?;
    page.text(b": ")?;
    write_why(page, fault.why)
}

/// Writes the fault's name, and what goes with it.
fn write_why(page: &mut Page, why: ScriptWhy) -> Result<(), NoMemory>
    ensures { OnOk result (page.new ≡ page.old ++ script_why_text why) }
{
    match why {
        ScriptWhy::ScriptSyntax => page.text(b"ScriptSyntax"),
        ScriptWhy::ScriptRange => page.text(b"ScriptRange"),
        ScriptWhy::UndoDepth { asked, left } => {
            page.text(b"UndoDepth")?;
            write_depths(page, asked, left)
        }
        ScriptWhy::TooManyEdits => page.text(b"TooManyEdits"),
        ScriptWhy::TooManyQueries => page.text(b"TooManyQueries"),
        ScriptWhy::RedoDepth { asked, left } => {
            page.text(b"RedoDepth")?;
            write_depths(page, asked, left)
        }
    }
}

/// Writes the number that was asked for, and how many moves there are.
pub(crate) fn write_depths(page: &mut Page, asked: u32, left: u32) -> Result<(), NoMemory>
    ensures { OnOk result (page.new ≡ page.old ++ depths_text asked left) }
{
    write_counted(page, b" ", asked as usize)?;
    write_counted(page, b" ", left as usize)
}
