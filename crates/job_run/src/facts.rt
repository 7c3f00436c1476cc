ghost use Rattle.std.specs.Prelude.{◌≡◌, [], IfOk, length};
ghost use Rattle.edit_plan.specs.Edits.{left_of};
ghost use Rattle.ray_grid.specs.Points.{lattice_of};
ghost use Rattle.job_report.specs.Report.{found_from};
ghost use Rattle.job_model.specs.Points.{left_moves, totals_after};
ghost use Rattle.job_model.specs.Tasks.{Job, PlanOf};
ghost use Rattle.job_run.specs.Founds.{AreBroughtUp, AreLast, AreLeft, HaveFound, found_told, rows_of};
ghost use Rattle.job_run.specs.Jobs.{OfSomeJob, OfSomePlan};
ghost use Rattle.job_run.specs.Left.{AreTold};

use crate::left::LeftMove;
use job_counts::{Counts, Totals};
use job_report::Found;
use std::alloc::Global;
use strip_journal::Strip;
use vf_io::NoMemory;

/// What each of the moves that are left found over all strips.
fn counts_over(alloc: Global, strips: &[Strip], left: usize) -> Result<Vec<Counts>, NoMemory>
    requires { OfSomeJob (λ job. AreLeft job left strips.now) }
    ensures { IfOk result (λ counts. (job : Job) → AreLeft job left strips.now → HaveFound job (lattice_of job.plan.grid) counts.items) }
{
    let mut counts = vec![in alloc; Counts::none(); left]?;
    for strip in strips {
        strip.add_found(counts.as_mut_slice());
    }
    Ok(counts)
}

/// What is reported of a move that is left, by its counts.
fn found_of(left: &LeftMove, counts: Counts) -> Found
    ensures { result ≡ found_told left.now counts }
{
    Found {
        number: left.number,
        line: left.line,
        rapid: left.rapid,
        counts,
    }
}

/// What is reported of moves in order, each by the counts at its place.
fn rows(alloc: Global, left: &[LeftMove], counts: &[Counts]) -> Result<Vec<Found>, NoMemory>
    requires many { length counts.now ≡ length left.now }
    requires plan { OfSomePlan (λ plan. AreTold plan left.now) }
    ensures { IfOk result (λ found. (plan : PlanOf) → AreTold plan left.now → found.items ≡ rows_of plan (left_of plan.edits) counts.now) }
{
    let mut found = Vec::with_capacity(alloc, left.len())?;
    for j in 0..left.len() {
        found.push(found_of(&left[j], counts[j]))?;
    }
    Ok(found)
}

/// What is reported of each of the moves that are left, in order.
pub fn found_moves(
    alloc: Global,
    left: &[LeftMove],
    strips: &[Strip],
) -> Result<Vec<Found>, NoMemory>
    requires { OfSomeJob (λ job. AreBroughtUp job left.now strips.now) }
    ensures { IfOk result (λ found. (job : Job) → AreBroughtUp job left.now strips.now
        → found.items ≡ found_from job [] (left_of job.plan.edits)) }
{
    let counts = counts_over(alloc, strips, left.len())?;
    rows(alloc, left, &counts)
}

/// The totals over all strips at the last version, which comes after `edits` edits.
pub fn last_totals(edits: u32, strips: &[Strip]) -> Totals
    requires { OfSomeJob (λ job. AreLast job edits strips.now) }
    ensures { (job : Job) → AreLast job edits strips.now → result ≡ totals_after job (left_moves job.plan (length job.plan.edits)) }
{
    let mut totals = Totals::none();
    for strip in strips {
        totals = totals.plus(&strip.counts_at(edits));
    }
    totals
}
