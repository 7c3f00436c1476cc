ghost use Rattle.std.specs.Prelude.{◌≡◌, ◌++◌, IfOk, OnOk, codes};
ghost use Rattle.vf_text.specs.Pages.{numbers};
ghost use Rattle.report_text.specs.Listing.{list_of, move_lines, move_line, move_head, cutter_text, flank_text, height_text};

use crate::counted::write_counted;
use cl_moves::{CutterText, Move, Program};
use std::alloc::Global;
use vf_io::NoMemory;
use vf_text::Page;

/// The most bytes of a move's line, or some more: room for all lines is taken once, and what isn't filled costs nothing.
const LONGEST_LINE: usize = 192;

/// The listing of a program: a line for each move, and one with the counts.
pub fn list_text(alloc: Global, program: &Program) -> Result<Vec<u8>, NoMemory>
    ensures { IfOk result (λ v. v.items ≡ list_of program.now) }
{
    let room = program.moves.len().saturating_mul(LONGEST_LINE);
    let mut page = Page::with_room(alloc, room)?;
    page.text(b"clverify list 1\n")?;
    write_moves(&mut page, program.moves.as_slice())?;
    write_counted(&mut page, b"moves ", program.moves.len())?;
    write_counted(&mut page, b" passed ", program.passed as usize)?;
    page.end_line()?;
    Ok(page.into_vec())
}

fn write_moves(page: &mut Page, moves: &[Move]) -> Result<(), NoMemory>
    ensures { OnOk result (page.new ≡ page.old ++ move_lines 1 moves.now) }
{
    for (before, next) in moves.iter().enumerate() {
        write_move(page, before + 1, next)?;
    }
    Ok(())
}

fn write_move(page: &mut Page, number: usize, next: &Move) -> Result<(), NoMemory>
    ensures { OnOk result (page.new ≡ page.old ++ move_line number next.now) }
{
    write_head(page, number, next.line, next.rapid)?;
    write_ends(page, b" from", &next.from, &next.to)?;
    write_ends(page, b" axis", &next.axis_from, &next.axis_to)?;
    page.text(b" cutter ")?;
    write_cutter(page, &next.cutter)?;
    page.end_line()
}

/// Writes the number of a move, its line and its kind.
pub(crate) fn write_head(
    page: &mut Page,
    number: usize,
    line: u32,
    rapid: bool,
) -> Result<(), NoMemory>
    ensures { OnOk result (page.new ≡ page.old ++ move_head number line rapid) }
{
    write_counted(page, b"move ", number)?;
    write_counted(page, b" line ", line as usize)?;
    page.text(if rapid { b" rapid" } else { b" cut" })
}

/// Writes what leads from one point to another, and both.
fn write_ends(page: &mut Page, name: &[u8], from: &[i32; 3], to: &[i32; 3]) -> Result<(), NoMemory>
    ensures { OnOk result (page.new ≡ page.old ++ (name.now ++ numbers from.now ++ codes " to" ++ numbers to.now)) }
{
    page.text(name)?;
    page.point(from)?;
    page.text(b" to")?;
    page.point(to)
}

fn write_cutter(page: &mut Page, cutter: &Option<CutterText>) -> Result<(), NoMemory>
    ensures { OnOk result (page.new ≡ page.old ++ cutter_text cutter.now) }
{
    let Some(cutter) = cutter else {
        return page.text(b"none");
    };
    page.number(cutter.d)?;
    page.space()?;
    page.number(cutter.r)?;
    page.space()?;
    write_height(page, cutter.h)?;
    write_flank(page, cutter.flank)
}

fn write_height(page: &mut Page, h: Option<i32>) -> Result<(), NoMemory>
    ensures { OnOk result (page.new ≡ page.old ++ height_text h) }
{
    match h {
        Some(h) => page.number(h),
        None => page.text(b"-"),
    }
}

/// Writes the flank of a cutter, where it isn't upright.
fn write_flank(page: &mut Page, flank: u32) -> Result<(), NoMemory>
    ensures { OnOk result (page.new ≡ page.old ++ flank_text flank) }
{
    if flank == 0 {
        return Ok(());
    }
    write_counted(page, b" flank ", flank as usize)
}
