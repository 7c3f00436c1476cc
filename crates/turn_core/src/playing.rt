ghost use Rattle.std.specs.Prelude.{◌≡◌, ◌∷◌, [], ◌++◌, All, IfOk, OnErr, OnOk, length};
ghost use Rattle.edit_plan.specs.Queries.{IsQuery};
ghost use Rattle.job_model.specs.Tasks.{Job};
ghost use Rattle.turn_core.specs.World.{AreBetween, AreOfPlan, AreStrips, AreStripsAt, IsStepOf};
ghost use Rattle.turn_core.specs.World.{after_step, after_steps, answers_to, versions_of};

use crate::asking::ask;
use crate::step::Step;
use crate::turning::turn_strip;
use edit_plan::Query;
use job_counts::Answer;
use std::alloc::Global;
use strip_journal::Strip;
use strip_plan::Plan;
use vf_io::NoMemory;

/// Does one step. The answer of a query is added to those before.
fn take_step(
    strips: &mut [Strip],
    plan: &Plan,
    queries: &[Query],
    step: Step,
    answers: &mut Vec<Answer>,
) -> Result<(), NoMemory>
    requires strips { AreOfPlan plan.now strips.old }
    requires queries { All (IsQuery plan.now.grid (length plan.now.edits)) queries.now }
    requires step { IsStepOf plan.now (length queries.now) step }
    ensures plan { AreOfPlan plan.now strips.new }
    ensures strips { OnOk result ((job : Job) → AreStrips job strips.old
        → AreStripsAt job strips.new (after_step plan.now queries.now (versions_of strips.old) step)) }
    ensures still { (job : Job) → AreStrips job strips.old → AreStrips job strips.new }
    ensures stopped { OnErr result ((job : Job) → AreStrips job strips.old
        → AreBetween (versions_of strips.old) (after_step plan.now queries.now (versions_of strips.old) step) (versions_of strips.new)) }
    ensures answers { OnOk result ((job : Job) → AreStrips job strips.old
        → answers.new.items ≡ answers.old.items ++ answers_to job queries.now (step ∷ [])) }
{
    match step {
        Step::Turn(strip) => match turn_strip(&mut strips[strip as usize], plan) {
            Ok(_) => Ok(()),
            Err(_) => Err(NoMemory),
        },
        Step::Ask(query) => {
            let answer = ask(strips, plan, &queries[query as usize])?;
            answers.push(answer)?;
            Ok(())
        }
    }
}

/// Does the steps in order, and gives the answers of the queries among them.
pub fn play(
    alloc: Global,
    strips: &mut [Strip],
    plan: &Plan,
    queries: &[Query],
    steps: &[Step],
) -> Result<Vec<Answer>, NoMemory>
    requires strips { AreOfPlan plan.now strips.old }
    requires queries { All (IsQuery plan.now.grid (length plan.now.edits)) queries.now }
    requires steps { All (IsStepOf plan.now (length queries.now)) steps.now }
    // Each strip is at the version where the core has it.
    ensures strips { OnOk result ((job : Job) → AreStrips job strips.old
        → AreStripsAt job strips.new (after_steps plan.now queries.now (versions_of strips.old) steps.now)) }
    ensures still { (job : Job) → AreStrips job strips.old → AreStrips job strips.new }
    // When out of memory each strip is where it was, or further, and not past where the steps lead.
    ensures stopped { OnErr result ((job : Job) → AreStrips job strips.old → AreBetween (versions_of strips.old)
        (after_steps plan.now queries.now (versions_of strips.old) steps.now) (versions_of strips.new)) }
    // Each answer is the one at its own query's version.
    ensures answers { IfOk result (λ answers. (job : Job) → AreStrips job strips.old
        → answers.items ≡ answers_to job queries.now steps.now) }
{
    let mut answers = Vec::new(alloc);
    for step in steps {
        take_step(strips, plan, queries, *step, &mut answers)?;
    }
    Ok(answers)
}
