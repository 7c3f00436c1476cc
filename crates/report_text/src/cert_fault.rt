ghost use Rattle.std.specs.Prelude.{◌≡◌, ◌++◌, OnOk};
ghost use Rattle.report_text.specs.CertFaults.{cert_fault_text, cert_why_name};

use crate::counted::write_counted;
use cert_lines::{CertFault, CertWhy};
use vf_io::NoMemory;
use vf_text::Page;

/// Writes the line where a certificate's fault is, and what is wrong there.
pub(crate) fn write_cert_fault(page: &mut Page, fault: CertFault) -> Result<(), NoMemory>
    ensures { OnOk result (page.new ≡ page.old ++ cert_fault_text fault) }
{
    write_counted(page, b"cert line ", fault.line as usize)?;
    page.text(b": ")?;
    page.text(name_of_why(fault.why))
}

fn name_of_why(why: CertWhy) -> &'static [u8]
    ensures { result.now ≡ cert_why_name why }
{
    match why {
        CertWhy::CertSyntax => b"CertSyntax",
        CertWhy::CertRange => b"CertRange",
    }
}
