ghost use Rattle.std.specs.Prelude.{◌≡◌, ◌++◌, IsTrue, IfOk, OnOk};
ghost use Rattle.vf_text.specs.Pages.{line};
ghost use Rattle.job_report.specs.Facts.{are_answered};
ghost use Rattle.report_text.specs.Report.{counts_text, found_lines, found_text, heading_text, pair_text, report_of};
ghost use Rattle.report_text.specs.Verdict.{text_of_lines};

use crate::answers::write_answers;
use crate::counted::write_counted;
use crate::listing::write_head;
use crate::verdict::{write_total, write_verdict};
use job_counts::Counts;
use job_report::{Facts, Found};
use std::alloc::Global;
use vf_io::NoMemory;
use vf_text::Page;

/// The most bytes of a move's line, of an answer's, and of the other lines together, or some more: room for all lines is taken
/// once, and what isn't filled costs nothing.
const LONGEST_MOVE: usize = 256;

const LONGEST_ANSWER: usize = 96;

const OTHER_LINES: usize = 192;

/// The report of a job: how many moves there are, a line for each move that is left and for each question with its answer, in
/// order, the totals, and whether all moves that are left are safe.
pub fn report_text(alloc: Global, facts: &Facts) -> Result<Vec<u8>, NoMemory>
    // `Facts::is_answered` says so.
    requires { IsTrue (are_answered facts.now.answers) }
    ensures { IfOk result (λ v. v.items ≡ report_of facts.now) }
{
    let mut page = Page::with_room(alloc, room_for(facts))?;
    page.text(b"clverify 1\n")?;
    let left = facts.left.as_slice();
    write_heading(&mut page, facts.moves, left.len(), facts.passed)?;
    write_left(&mut page, left)?;
    write_answers(&mut page, facts.answers.as_slice())?;
    write_total(&mut page, &facts.totals)?;
    write_verdict(&mut page, facts.is_clean())?;
    Ok(page.into_vec())
}

/// Room for a whole report.
fn room_for(facts: &Facts) -> usize {
    let moves = facts.left.len().saturating_mul(LONGEST_MOVE);
    let answers = facts.answers.len().saturating_mul(LONGEST_ANSWER);
    moves.saturating_add(answers).saturating_add(OTHER_LINES)
}

fn write_heading(page: &mut Page, moves: u32, left: usize, passed: u32) -> Result<(), NoMemory>
    ensures { OnOk result (page.new ≡ page.old ++ line (heading_text moves left passed)) }
{
    write_counted(page, b"moves ", moves as usize)?;
    write_counted(page, b" left ", left)?;
    write_counted(page, b" passed ", passed as usize)?;
    page.end_line()
}

fn write_left(page: &mut Page, left: &[Found]) -> Result<(), NoMemory>
    ensures { OnOk result (page.new ≡ page.old ++ text_of_lines (found_lines left.now)) }
{
    for found in left {
        write_found(page, found)?;
        page.end_line()?;
    }
    Ok(())
}

fn write_found(page: &mut Page, found: &Found) -> Result<(), NoMemory>
    ensures { OnOk result (page.new ≡ page.old ++ found_text found.now) }
{
    write_head(page, found.number as usize, found.line, found.rapid)?;
    write_counts(page, &found.counts)?;
    page.text(if found.counts.is_safe() {
        b" safe"
    } else {
        b" unsafe"
    })
}

fn write_counts(page: &mut Page, counts: &Counts) -> Result<(), NoMemory>
    ensures { OnOk result (page.new ≡ page.old ++ counts_text counts.now) }
{
    write_counted(page, b" removed ", counts.removed as usize)?;
    write_counted(page, b" possible ", counts.possible as usize)?;
    write_both(page, b" part ", counts.part_sure, counts.part_possible)?;
    write_both(page, b" fixture ", counts.fix_sure, counts.fix_possible)?;
    write_both(page, b" rapid ", counts.rapid_sure, counts.rapid_possible)
}

/// Writes what two counts are of, and the counts.
fn write_both(page: &mut Page, name: &[u8], sure: u64, possible: u64) -> Result<(), NoMemory>
    ensures { OnOk result (page.new ≡ page.old ++ (name.now ++ pair_text sure possible)) }
{
    page.text(name)?;
    write_pair(page, sure, possible)
}

/// Writes two counts: the points that are sure, and those that are possible.
fn write_pair(page: &mut Page, sure: u64, possible: u64) -> Result<(), NoMemory>
    ensures { OnOk result (page.new ≡ page.old ++ pair_text sure possible) }
{
    page.count(sure as usize)?;
    write_counted(page, b" ", possible as usize)
}
