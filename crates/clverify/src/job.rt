ghost use Rattle.std.specs.Prelude.{◌≡◌, IfOk, IsTrue};
ghost use Rattle.job_report.specs.Facts.{are_answered};
ghost use Rattle.job_report.specs.Remaining.{remaining_stock};
ghost use Rattle.job_report.specs.Report.{facts_of};
ghost use Rattle.job_report.specs.Tasks.{IsTask};
ghost use Rattle.clverify.specs.Asked.{AreWorkers};

use job_inputs::TaskInputs;
use job_report::Facts;
use job_run::{make_ready, remaining_stock, run_job};
use std::alloc::Global;
use std::sync::Wait;
use std::thread::Threads;
use stock_file::SavedStock;
use vf_io::NoMemory;
use worker_gate::Gate;

/// Does the task by `workers` workers, and returns what is true of its job.
pub(crate) fn do_task<R: Threads + Wait + Sync, G: Gate + Sync>(
    rt: &R,
    alloc: Global,
    inputs: TaskInputs,
    workers: u32,
    gate: &G,
) -> Result<Facts, NoMemory>
    requires { AreWorkers workers }
    ensures facts { IfOk result (λ facts. facts ≡ facts_of inputs) }
    ensures answered { IfOk result (λ facts. IsTrue (are_answered facts.answers)) }
    ensures valid { IfOk result (λ _. IsTask inputs) }
{
    let ready = make_ready(alloc, inputs)?;
    run_job(rt, alloc, ready, workers, gate)
}

/// Does the task by one worker, and returns what its moves leave of the stock.
pub(crate) fn remaining_stock_of<R: Threads + Wait + Sync, G: Gate + Sync>(
    rt: &R,
    alloc: Global,
    inputs: TaskInputs,
    gate: &G,
) -> Result<SavedStock, NoMemory>
    ensures stock { IfOk result (λ stock. stock ≡ remaining_stock inputs.job) }
    ensures valid { IfOk result (λ _. IsTask inputs) }
{
    let ready = make_ready(alloc, inputs)?;
    remaining_stock(rt, alloc, ready, gate)
}
