ghost use Rattle.std.specs.Prelude.{◌≡◌, [], ◌<◌, ◌≤◌, All, IfOk, IsTrue, length};
ghost use Rattle.edit_plan.specs.Queries.{IsQuery};
ghost use Rattle.job_model.specs.Tasks.{Job};
ghost use Rattle.job_report.specs.Facts.{are_answered};
ghost use Rattle.job_report.specs.Remaining.{remaining_stock};
ghost use Rattle.job_report.specs.Report.{facts_of};
ghost use Rattle.job_run.specs.Asked.{asked_with};
ghost use Rattle.job_run.specs.Finished.{IsFinished};
ghost use Rattle.job_run.specs.Jobs.{AreOver, OfSomeJob, job_with};
ghost use Rattle.job_run.specs.Ready.{task_ready};
ghost use Rattle.job_run.specs.Remaining.{AreFinishedOn};

use crate::bodies::JobBodies;
use crate::facts::{found_moves, last_totals};
use crate::finished::{FinishedJob, finish_job};
use crate::ready::ReadyTask;
use crate::remaining::remaining_sets;
use edit_plan::{Ask, Query};
use job_counts::Answer;
use job_report::Facts;
use ray_grid::Grid;
use ray_shapes::{Bodies, Solid};
use std::alloc::Global;
use std::mem;
use std::sync::Wait;
use std::thread::Threads;
use stock_file::SavedStock;
use strip_journal::Strip;
use strip_plan::PlanDraft;
use vf_io::NoMemory;
use worker_gate::Gate;

/// Each question with its answer.
fn answered(
    alloc: Global,
    queries: &[Query],
    answers: &[Answer],
) -> Result<Vec<(Ask, Answer)>, NoMemory>
    requires { length answers.now ≡ length queries.now }
    ensures { IfOk result (λ pairs. pairs.items ≡ asked_with queries.now answers.now) }
{
    let mut pairs = Vec::with_capacity(alloc, queries.len())?;
    for n in 0..queries.len() {
        pairs.push((queries[n].ask, answers[n]))?;
    }
    Ok(pairs)
}

/// Leaves what strips hold to the system, which takes it back as a whole when the program ends: a program does one job, and to free the
/// lists of each ray one by one takes a hundredth of the job's time.
fn leave(strips: Vec<Strip>) {
    mem::forget(strips);
}

/// What is reported of a job that is done. What its strips hold isn't freed before the program ends.
fn reported(
    alloc: Global,
    finished: FinishedJob,
    passed: u32,
    queries: &[Query],
) -> Result<Facts, NoMemory>
    requires { OfSomeJob (λ job. IsFinished job queries.now finished) }
    ensures facts { IfOk result (λ facts. (job : Job) → IsFinished job queries.now finished
        → facts ≡ facts_of record { job = job; passed = passed; queries = queries.now }) }
    ensures answered { IfOk result (λ facts. IsTrue (are_answered facts.answers)) }
{
    let FinishedJob {
        moves,
        edits,
        left,
        answers,
        strips,
    } = finished;
    let left = found_moves(alloc, &left, &strips)?;
    let totals = last_totals(edits, &strips);
    leave(strips);
    let answers = answered(alloc, queries, &answers)?;
    Ok(Facts {
        moves,
        passed,
        left,
        answers,
        totals,
    })
}

/// Does a task by `workers` workers, and returns what is reported of it. Fails only when out of memory. Where it doesn't fail, what the
/// strips hold isn't freed before the program ends.
pub fn run_job<R: Threads + Wait + Sync, G: Gate + Sync>(
    rt: &R,
    alloc: Global,
    task: ReadyTask,
    workers: u32,
    gate: &G,
) -> Result<Facts, NoMemory>
    requires queries { All (IsQuery task.plan.grid (length task.plan.edits)) task.queries }
    requires workers { (0 < workers) × (workers ≤ 16) }
    requires over { AreOver task.plan.grid task.bodies }
    // What the definitions say, point by point, of the whole lattice, whoever does which part when.
    ensures facts { IfOk result (λ facts. facts ≡ facts_of (task_ready task)) }
    ensures answered { IfOk result (λ facts. IsTrue (are_answered facts.answers)) }
{
    let ReadyTask {
        plan,
        bodies,
        passed,
        queries,
    } = task;
    let queries = queries.as_slice();
    let finished = finish_job(rt, alloc, plan, &bodies, queries, workers, gate)?;
    reported(alloc, finished, passed, queries)
}

/// The bodies of a job of which only the stock is asked: no part and no fixture.
fn stock_alone(alloc: Global, stock: Solid) -> JobBodies
    ensures { result ≡ record { stock = stock; part = Solid.Bodies []; fixture = Solid.Bodies [] } }
{
    JobBodies {
        stock,
        part: Solid::Bodies(Bodies::new(Vec::new(alloc))),
        fixture: Solid::Bodies(Bodies::new(Vec::new(alloc))),
    }
}

/// What a job that is done leaves of its stock. What its strips hold isn't freed before the program ends.
fn stock_of(alloc: Global, grid: Grid, finished: FinishedJob) -> Result<SavedStock, NoMemory>
    requires { OfSomeJob (λ job. AreFinishedOn job grid finished.strips.items) }
    ensures { IfOk result (λ stock. (job : Job) → AreFinishedOn job grid finished.strips.items → stock ≡ remaining_stock job) }
{
    let sets = remaining_sets(alloc, &grid, &finished.strips)?;
    leave(finished.strips);
    Ok(SavedStock::of_rays(grid, sets))
}

/// Does a job by one worker, and returns what it leaves of its stock.
fn save_job<R: Threads + Wait + Sync, G: Gate + Sync>(
    rt: &R,
    alloc: Global,
    plan: PlanDraft,
    bodies: &JobBodies,
    gate: &G,
) -> Result<SavedStock, NoMemory>
    requires { AreOver plan.grid bodies.now }
    ensures { IfOk result (λ stock. stock ≡ remaining_stock (job_with plan bodies.now)) }
{
    let grid = *plan.grid();
    let finished = finish_job(rt, alloc, plan, bodies, &[], 1, gate)?;
    stock_of(alloc, grid, finished)
}

/// Does a task by one worker, and returns what it leaves of the stock. Its queries aren't answered, and part and fixtures are left out,
/// since no cut is stopped by them. Fails only when out of memory. Where it doesn't fail, what the strips hold isn't freed before the
/// program ends.
pub fn remaining_stock<R: Threads + Wait + Sync, G: Gate + Sync>(
    rt: &R,
    alloc: Global,
    task: ReadyTask,
    gate: &G,
) -> Result<SavedStock, NoMemory>
    requires over { AreOver task.plan.grid task.bodies }
    ensures stock { IfOk result (λ stock. stock ≡ remaining_stock (task_ready task).job) }
{
    let ReadyTask { plan, bodies, .. } = task;
    let bodies = stock_alone(alloc, bodies.stock);
    save_job(rt, alloc, plan, &bodies, gate)
}
