ghost use Rattle.std.specs.Prelude.{◌≡◌, ◌++◌, IfOk, OnOk};
ghost use Rattle.report_text.specs.Refusals.{refusal_of, fault_text, input_name, refused_word, why_name};

use crate::cert_fault::write_cert_fault;
use crate::counted::write_counted;
use crate::place::write_place;
use crate::script_fault::{write_depths, write_script_fault};
use crate::setup_fault::write_setup_fault;
use crate::stock_fault::write_stock_fault;
use cl_lines::ClWhy;
use input_faults::{Fault, Input};
use std::alloc::Global;
use vf_io::NoMemory;
use vf_text::Page;

/// The one line of a refusal.
pub fn refusal_text(alloc: Global, fault: &Fault) -> Result<Vec<u8>, NoMemory>
    ensures { IfOk result (λ v. v.items ≡ refusal_of fault.now) }
{
    let mut page = Page::new(alloc);
    page.text(b"refused: ")?;
    write_fault(&mut page, fault)?;
    page.end_line()?;
    Ok(page.into_vec())
}

fn write_fault(page: &mut Page, fault: &Fault) -> Result<(), NoMemory>
    ensures { OnOk result (page.new ≡ page.old ++ fault_text fault.now) }
{
    match fault {
        Fault::TooLong(input) => {
            page.text(name_of_input(*input))?;
            page.text(b": TooLong")
        }
        Fault::CutterHeight(line) => {
            write_counted(page, b"cl line ", *line as usize)?;
            page.text(b": CutterHeight")
        }
        Fault::Cl(fault) => {
            write_counted(page, b"cl line ", fault.line as usize)?;
            page.text(b": ")?;
            page.text(name_of_why(fault.why))?;
            write_refused_word(page, fault.why)
        }
        Fault::Setup(fault) => write_setup_fault(page, *fault),
        Fault::Script(fault) => write_script_fault(page, fault),
        Fault::MoveRange { asked, moves } => {
            page.text(b"cl: MoveRange")?;
            write_depths(page, *asked, *moves)
        }
        Fault::Cert(fault) => write_cert_fault(page, *fault),
        Fault::Stock(fault) => write_stock_fault(page, *fault),
        Fault::StockOther => page.text(b"stock: StockOther"),
        Fault::TurnOutside { ray, l } => {
            page.text(b"stock: TurnOutside")?;
            write_place(page, ray, *l)
        }
    }
}

fn name_of_input(input: Input) -> &'static [u8]
    ensures { result.now ≡ input_name input }
{
    match input {
        Input::Cl => b"cl",
        Input::Setup => b"setup",
        Input::Script => b"script",
        Input::Cert => b"cert",
        Input::Stock => b"stock",
    }
}

fn name_of_why(why: ClWhy) -> &'static [u8]
    ensures { result.now ≡ why_name why }
{
    match why {
        ClWhy::LineLong => b"LineLong",
        ClWhy::DanglingDollar => b"DanglingDollar",
        ClWhy::BadByte => b"BadByte",
        ClWhy::Unsupported(_) => b"Unsupported",
        ClWhy::ParamCount => b"ParamCount",
        ClWhy::ParamWord => b"ParamWord",
        ClWhy::NumberSyntax => b"NumberSyntax",
        ClWhy::NumberRange => b"NumberRange",
        ClWhy::CutterShape => b"CutterShape",
        ClWhy::AxisZero => b"AxisZero",
        ClWhy::NoPosition => b"NoPosition",
        ClWhy::AxisFlip => b"AxisFlip",
        ClWhy::TooManyMoves => b"TooManyMoves",
    }
}

/// Writes the word that is refused, where the fault is that it is.
fn write_refused_word(page: &mut Page, why: ClWhy) -> Result<(), NoMemory>
    ensures { OnOk result (page.new ≡ page.old ++ refused_word why) }
{
    let ClWhy::Unsupported(word) = why else {
        return Ok(());
    };
    page.space()?;
    page.text(word.name())
}
