ghost use Rattle.std.specs.Prelude.{◌≡◌, ◌++◌, IsTrue, OnOk};
ghost use Rattle.vf_text.specs.Pages.{line};
ghost use Rattle.job_report.specs.Answers.{is_answer_to};
ghost use Rattle.job_report.specs.Facts.{are_answered};
ghost use Rattle.report_text.specs.Answers.{answer_text, count_text, family_name, probe_text, state_name};
ghost use Rattle.report_text.specs.Report.{answer_lines};
ghost use Rattle.report_text.specs.Verdict.{text_of_lines};

use crate::counted::write_counted;
use crate::verdict::write_points;
use edit_plan::Ask;
use job_counts::{Answer, PointState, Totals};
use ray_grid::{Family, Ray};
use vf_io::NoMemory;
use vf_text::Page;

/// Writes the lines of questions with their answers.
pub(crate) fn write_answers(page: &mut Page, answers: &[(Ask, Answer)]) -> Result<(), NoMemory>
    requires { IsTrue (are_answered answers.now) }
    ensures { OnOk result (page.new ≡ page.old ++ text_of_lines (answer_lines answers.now)) }
{
    for answered in answers {
        write_answer(page, &answered.0, &answered.1)?;
        page.end_line()?;
    }
    Ok(())
}

fn write_answer(page: &mut Page, ask: &Ask, answer: &Answer) -> Result<(), NoMemory>
    requires { IsTrue (is_answer_to ask.now answer.now) }
    ensures { OnOk result (page.new ≡ page.old ++ answer_text ask.now answer.now) }
{
    match ask {
        Ask::Probe { ray, l } => match answer {
            Answer::Probe(state) => write_probe(page, ray, *l, *state),
            Answer::Count(_) => unreachable!(),
        },
        Ask::Count => match answer {
            Answer::Count(totals) => write_count(page, totals),
            Answer::Probe(_) => unreachable!(),
        },
    }
}

/// Writes a point of a ray, and its state.
fn write_probe(page: &mut Page, ray: &Ray, l: u32, state: PointState) -> Result<(), NoMemory>
    ensures { OnOk result (page.new ≡ page.old ++ probe_text ray.now l state) }
{
    page.text(b"probe ")?;
    page.text(name_of_family(ray.family))?;
    write_counted(page, b" ", ray.i as usize)?;
    write_counted(page, b" ", ray.j as usize)?;
    write_counted(page, b" ", l as usize)?;
    page.space()?;
    page.text(name_of_state(state))
}

/// Writes the totals that were asked for.
fn write_count(page: &mut Page, totals: &Totals) -> Result<(), NoMemory>
    ensures { OnOk result (page.new ≡ page.old ++ count_text totals.now) }
{
    page.text(b"count")?;
    write_points(page, totals)
}

pub(crate) fn name_of_family(family: Family) -> &'static [u8]
    ensures { result.now ≡ family_name family }
{
    match family {
        Family::X => b"X",
        Family::Y => b"Y",
        Family::Z => b"Z",
    }
}

fn name_of_state(state: PointState) -> &'static [u8]
    ensures { result.now ≡ state_name state }
{
    match state {
        PointState::Absent => b"none",
        PointState::Kept => b"kept",
        PointState::Possible => b"possible",
        PointState::Removed => b"removed",
    }
}
