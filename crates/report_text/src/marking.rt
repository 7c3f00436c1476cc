ghost use Rattle.std.specs.Prelude.{◌≡◌, ◌++◌, length, IfOk, OnOk};
ghost use Rattle.report_text.specs.Marking.{marking_of, mark_line, mark_lines, mark_name};

use crate::counted::write_counted;
use axis_cells::Mark;
use cl_moves::{Move, Program};
use std::alloc::Global;
use vf_io::NoMemory;
use vf_text::Page;

/// The marks of a program's moves: a line for each move, and one with their count.
pub fn point_text(
    alloc: Global,
    program: &Program,
    marks: &[Option<Mark>],
) -> Result<Vec<u8>, NoMemory>
    requires { length marks.now ≡ length program.now.moves }
    ensures { IfOk result (λ v. v.items ≡ marking_of program.now marks.now) }
{
    let mut page = Page::new(alloc);
    page.text(b"clverify point 1\n")?;
    write_marks(&mut page, program.moves.as_slice(), marks)?;
    write_counted(&mut page, b"moves ", program.moves.len())?;
    page.end_line()?;
    Ok(page.into_vec())
}

fn write_marks(page: &mut Page, moves: &[Move], marks: &[Option<Mark>]) -> Result<(), NoMemory>
    requires { length marks.now ≡ length moves.now }
    ensures { OnOk result (page.new ≡ page.old ++ mark_lines 1 moves.now marks.now) }
{
    for (before, next) in moves.iter().enumerate() {
        write_mark(page, before + 1, next, &marks[before])?;
    }
    Ok(())
}

fn write_mark(
    page: &mut Page,
    number: usize,
    next: &Move,
    mark: &Option<Mark>,
) -> Result<(), NoMemory>
    ensures { OnOk result (page.new ≡ page.old ++ mark_line number next.now mark.now) }
{
    write_counted(page, b"move ", number)?;
    write_counted(page, b" line ", next.line as usize)?;
    page.space()?;
    page.text(name_of_mark(*mark))?;
    page.end_line()
}

fn name_of_mark(mark: Option<Mark>) -> &'static [u8]
    ensures { result.now ≡ mark_name mark }
{
    match mark {
        Some(Mark::Removed) => b"removed",
        Some(Mark::Possible) => b"possible",
        Some(Mark::Clear) => b"clear",
        None => b"nocutter",
    }
}
