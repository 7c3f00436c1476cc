ghost use Rattle.std.specs.Prelude.{◌≡◌, ◌++◌, OnOk};
ghost use Rattle.report_text.specs.StockFaults.{stock_fault_text, stock_why_name};

use crate::counted::write_counted;
use stock_file::{StockFault, StockWhy};
use vf_io::NoMemory;
use vf_text::Page;

/// Writes the line where a saved stock's fault is, and what is wrong there.
pub(crate) fn write_stock_fault(page: &mut Page, fault: StockFault) -> Result<(), NoMemory>
    ensures { OnOk result (page.new ≡ page.old ++ stock_fault_text fault) }
{
    write_counted(page, b"stock line ", fault.line as usize)?;
    page.text(b": ")?;
    page.text(name_of_why(fault.why))
}

fn name_of_why(why: StockWhy) -> &'static [u8]
    ensures { result.now ≡ stock_why_name why }
{
    match why {
        StockWhy::StockSyntax => b"StockSyntax",
        StockWhy::StockGrid => b"StockGrid",
        StockWhy::StockOrder => b"StockOrder",
    }
}
