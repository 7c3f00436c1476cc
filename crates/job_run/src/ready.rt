ghost use Rattle.std.specs.Prelude.{◌≡◌, map, length, None, All, IfOk, IfSome, false};
ghost use Rattle.cl_moves.specs.Moves.{IsMove};
ghost use Rattle.edit_plan.specs.Queries.{IsQuery};
ghost use Rattle.job_report.specs.Tasks.{IsTask};
ghost use Rattle.setup_file.specs.Shift.{shifted_of};
ghost use Rattle.setup_file.specs.Sound.{IsSetup, IsTool};
ghost use Rattle.move_cutters.specs.Cutters.{first_low, is_move_low};
ghost use Rattle.job_inputs.specs.Stocks.{LiesIn};
ghost use Rattle.job_inputs.specs.Tasks.{job_move, part_as_it_lies, stock_as_it_lies, tool_defaults};
ghost use Rattle.ray_shapes.specs.Sets.{IsSolidOver};
ghost use Rattle.job_run.specs.Jobs.{AreOver};
ghost use Rattle.job_run.specs.Ready.{task_ready};

use crate::bodies::JobBodies;
use cl_moves::Move;
use cutter_slabs::Cutter;
use edit_plan::{Queries, Script};
use job_inputs::{TaskInputs, move_cutter, part_as_it_lies, raised_fixture};
use move_cutters::sweep_of;
use ray_shapes::{RaySets, Solid};
use setup_file::Setup;
use std::alloc::Global;
use stock_file::SavedStock;
use strip_plan::{PlanDraft, PlanMove};
use vf_io::NoMemory;

/// A task that is ready to be done: what its plan is made of; the bodies that are judged; how many records of the program were passed
/// over; and the queries.
#[derive(Drop)]
pub struct ReadyTask {
    pub plan: PlanDraft,
    pub bodies: JobBodies,
    pub passed: u32,
    pub queries: Queries,
}

/// A move with the cutter that it is made with.
fn plan_move(tool: &Cutter, next: &Move) -> PlanMove
    requires tool { IsTool tool.now }
    requires valid { IsMove next.now }
    requires high { is_move_low (tool_defaults tool.now) next.now ≡ false }
    ensures { result ≡ job_move tool.now next.now }
{
    PlanMove::new(
        sweep_of(next),
        move_cutter(tool, next),
        next.rapid,
        next.line,
    )
}

/// The moves of a program in order, each with its cutter.
fn plan_moves(alloc: Global, tool: &Cutter, moves: &[Move]) -> Result<Vec<PlanMove>, NoMemory>
    requires tool { IsTool tool.now }
    requires valid { All IsMove moves.now }
    requires high { first_low (tool_defaults tool.now) moves.now ≡ None }
    ensures { IfOk result (λ made. made.items ≡ map (job_move tool.now) moves.now) }
{
    let mut made = Vec::with_capacity(alloc, moves.len())?;
    for next in moves {
        made.push(plan_move(tool, next))?;
    }
    Ok(made)
}

/// The stock that is cut: what was saved, or else that of the setup.
fn task_stock(setup: &Setup, saved: Option<SavedStock>) -> Result<Solid, NoMemory>
    requires { IfSome saved (LiesIn setup.now.grid) }
    ensures stock { IfOk result (λ made. made ≡ stock_as_it_lies setup.now saved) }
    ensures over { IfOk result (IsSolidOver setup.now.grid) }
{
    match saved {
        Some(saved) => Ok(Solid::Listed(RaySets::new(saved.into_rays()))),
        None => Ok(Solid::Bodies(setup.stock.copy()?)),
    }
}

/// The stock that is cut, the part of a setup as it may be cut and as it lies, and its fixtures as they are kept clear.
fn task_bodies(
    alloc: Global,
    setup: &Setup,
    saved: Option<SavedStock>,
) -> Result<JobBodies, NoMemory>
    requires setup { IsSetup setup.now }
    requires saved { IfSome saved (LiesIn setup.now.grid) }
    ensures stock { IfOk result (λ made. made.stock ≡ stock_as_it_lies setup.now saved) }
    ensures part { IfOk result (λ made. made.part ≡ part_as_it_lies setup.now) }
    ensures fixture { IfOk result (λ made. made.fixture ≡ Solid.Bodies (shifted_of setup.now.clearance setup.now.fixture)) }
    ensures over { IfOk result (AreOver setup.now.grid) }
{
    let part = part_as_it_lies(alloc, setup)?;
    let fixture = raised_fixture(alloc, setup)?;
    let stock = task_stock(setup, saved)?;
    Ok(JobBodies {
        stock,
        part,
        fixture: Solid::Bodies(fixture),
    })
}

/// Makes a task ready to be done. Fails only when out of memory.
pub fn make_ready(alloc: Global, inputs: TaskInputs) -> Result<ReadyTask, NoMemory>
    ensures task { IfOk result (λ ready. task_ready ready ≡ inputs) }
    ensures asked { IfOk result (λ ready. All (IsQuery ready.plan.grid (length ready.plan.edits)) ready.queries) }
    ensures valid { IfOk result (λ ready. IsTask (task_ready ready)) }
    // Each of its solids fits its grid.
    ensures over { IfOk result (λ ready. AreOver ready.plan.grid ready.bodies) }
{
    let TaskInputs {
        program,
        setup,
        stock,
        script,
    } = inputs;
    let moves = plan_moves(alloc, &setup.tool, program.moves.as_slice())?;
    let Script { edits, queries } = script;
    let plan = PlanDraft::new(alloc, setup.grid, setup.slabs, setup.depth, moves, edits)?;
    let bodies = task_bodies(alloc, &setup, stock)?;
    Ok(ReadyTask {
        plan,
        bodies,
        passed: program.passed,
        queries,
    })
}
