ghost use Rattle.std.specs.Prelude.{◌≡◌, ◌++◌, OnOk};
ghost use Rattle.std.specs.Fmt.{signed_decimal};
ghost use Rattle.report_text.specs.SetupFaults.{key_place, range_text, setup_fault_text};

use itoa::Buffer;
use setup_keys::{KeyName, SetupFault};
use vf_io::NoMemory;
use vf_text::Page;

/// Writes the key, where there is one, the fault's name, and the number that is out of range.
pub(crate) fn write_setup_fault(page: &mut Page, fault: SetupFault) -> Result<(), NoMemory>
    ensures { OnOk result (page.new ≡ page.old ++ setup_fault_text fault) }
{
    match fault {
        SetupFault::SetupSyntax => page.text(b"setup: SetupSyntax"),
        SetupFault::SetupKey(key) => {
            write_key(page, key)?;
            page.text(b": SetupKey")
        }
        SetupFault::SetupRange(key, value) => write_range(page, key, value),
    }
}

/// Writes the key, and the number that is out of its range.
fn write_range(page: &mut Page, key: KeyName, value: i64) -> Result<(), NoMemory>
    ensures { OnOk result (page.new ≡ page.old ++ range_text key value) }
{
    write_key(page, key)?;
    page.text(b": SetupRange ")?;
    write_value(page, value)
}

fn write_value(page: &mut Page, value: i64) -> Result<(), NoMemory>
    ensures { OnOk result (page.new ≡ page.old ++ signed_decimal value) }
{
    page.text(Buffer::new().format(value).as_bytes())
}

/// Writes the key where a fault is.
fn write_key(page: &mut Page, key: KeyName) -> Result<(), NoMemory>
    ensures { OnOk result (page.new ≡ page.old ++ key_place key) }
{
    page.text(b"setup ")?;
    page.text(key.text())
}
