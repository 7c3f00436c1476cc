ghost use Rattle.std.specs.Prelude.{◌≡◌, ◌++◌, IfOk, OnOk};
ghost use Rattle.report_text.specs.CertAnswers.{cert_verdict_text, cert_verdict_words, made_cert_text};

use crate::counted::write_counted;
use crate::place::write_place;
use cert_boxes::Verdict;
use cert_lines::{Cert, cert_text};
use std::alloc::Global;
use vf_io::NoMemory;
use vf_text::Page;

/// The text of the certificate that was made, or the one line that there is none.
pub fn made_cert_text(alloc: Global, made: &Option<Cert>) -> Result<Vec<u8>, NoMemory>
    ensures { IfOk result (λ v. v.items ≡ made_cert_text made.now) }
{
    match made {
        Some(cert) => cert_text(alloc, cert),
        None => no_cert_text(alloc),
    }
}

fn no_cert_text(alloc: Global) -> Result<Vec<u8>, NoMemory>
    ensures { IfOk result (λ v. v.items ≡ made_cert_text None) }
{
    let mut page = Page::new(alloc);
    page.text(b"nocert\n")?;
    Ok(page.into_vec())
}

/// The one line of the verdict on a certificate.
pub fn cert_verdict_text(alloc: Global, verdict: Verdict) -> Result<Vec<u8>, NoMemory>
    ensures { IfOk result (λ v. v.items ≡ cert_verdict_text verdict) }
{
    let mut page = Page::new(alloc);
    write_cert_verdict(&mut page, verdict)?;
    page.end_line()?;
    Ok(page.into_vec())
}

fn write_cert_verdict(page: &mut Page, verdict: Verdict) -> Result<(), NoMemory>
    ensures { OnOk result (page.new ≡ page.old ++ cert_verdict_words verdict) }
{
    match verdict {
        Verdict::Accepted => page.text(b"cert accepted"),
        Verdict::BoxStands { line } => write_counted(page, b"cert rejected line ", line as usize),
        Verdict::Uncovered { ray, l } => {
            page.text(b"cert rejected")?;
            write_place(page, &ray, l)
        }
    }
}
