ghost use Rattle.std.specs.Prelude.{◌≡◌, ◌++◌, OnOk, decimal};

use vf_io::NoMemory;
use vf_text::Page;

/// Writes a text, and a count after it.
pub(crate) fn write_counted(page: &mut Page, text: &[u8], n: usize) -> Result<(), NoMemory>
    ensures { OnOk result (page.new ≡ page.old ++ (text.now ++ decimal n)) }
{
    page.text(text)?;
    page.count(n)
}
