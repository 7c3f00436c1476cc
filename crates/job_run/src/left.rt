ghost use Rattle.std.specs.Prelude.{◌≡◌, ◌++◌, ◌<◌, All, IfOk, OnOk, length};
ghost use Rattle.edit_plan.specs.Edits.{after_edit, all_but_last, last_alone, left_of};
ghost use Rattle.job_run.specs.Left.{AreFirstTold, AreTold, IsTold, lists_with};
ghost use Rattle.job_report.specs.Tasks.{IsBelow};

use edit_plan::Edit;
use std::alloc::Global;
use strip_plan::Plan;
use vf_io::NoMemory;

/// A move that is left, as the plan has it: its number from 1, the line of its record, and whether it is rapid.
#[derive(Clone, Copy)]
pub struct LeftMove {
    pub number: u32,
    pub line: u32,
    pub rapid: bool,
}

/// Takes the last item of a list to the end of another, if there is one.
fn move_last(from: &mut Vec<u32>, to: &mut Vec<u32>) -> Result<(), NoMemory>
    ensures from { OnOk result (from.new.items ≡ all_but_last from.old.items) }
    ensures to { OnOk result (to.new.items ≡ to.old.items ++ last_alone from.old.items) }
{
    if let Some(number) = from.pop() {
        to.push(number)?;
    }
    Ok(())
}

/// The lists of the moves that are left and dropped after one edit more.
fn take_edit(left: &mut Vec<u32>, dropped: &mut Vec<u32>, edit: Edit) -> Result<(), NoMemory>
    ensures { OnOk result (lists_with left.new.items dropped.new.items ≡ after_edit (lists_with left.old.items dropped.old.items) edit) }
{
    match edit {
        Edit::Apply(number) => {
            dropped.clear();
            left.push(number)?;
            Ok(())
        }
        Edit::Undo => move_last(left, dropped),
        Edit::Redo => move_last(dropped, left),
    }
}

/// The numbers of the moves that are left after all edits.
fn left_numbers(alloc: Global, plan: &Plan) -> Result<Vec<u32>, NoMemory>
    ensures left { IfOk result (λ left. left.items ≡ left_of plan.now.edits) }
    ensures named { IfOk result (λ left. All (IsBelow (length plan.now.moves)) left.items) }
{
    let mut left = Vec::new(alloc);
    let mut dropped = Vec::new(alloc);
    for version in 0..plan.edits() {
        take_edit(&mut left, &mut dropped, plan.edit(version))?;
    }
    Ok(left)
}

/// A move of the plan, as it is reported.
fn told_of(plan: &Plan, number: u32) -> LeftMove
    requires { number < length plan.now.moves }
    ensures { IsTold plan.now number result }
{
    // The call that returns the number of moves says that they are few.
    let _few = plan.moves();
    LeftMove {
        number: number + 1,
        line: plan.line(number),
        rapid: plan.is_rapid(number),
    }
}

/// The moves of the plan with these numbers, in order.
fn told(alloc: Global, plan: &Plan, numbers: &[u32]) -> Result<Vec<LeftMove>, NoMemory>
    requires { All (IsBelow (length plan.now.moves)) numbers.now }
    ensures { IfOk result (λ told. AreFirstTold plan.now numbers.now (length numbers.now) told.items) }
{
    let mut told = Vec::with_capacity(alloc, numbers.len())?;
    for j in 0..numbers.len() {
        told.push(told_of(plan, numbers[j]))?;
    }
    Ok(told)
}

/// The moves that are left after all edits, in order.
pub fn left_moves(alloc: Global, plan: &Plan) -> Result<Vec<LeftMove>, NoMemory>
    ensures { IfOk result (λ told. AreTold plan.now told.items) }
{
    let numbers = left_numbers(alloc, plan)?;
    told(alloc, plan, &numbers)
}
