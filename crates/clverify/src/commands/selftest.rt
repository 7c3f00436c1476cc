ghost use Rattle.std.specs.Prelude.{◌≡◌, IfOk, IsTrue, false, map, option_map, string_bytes};
ghost use Rattle.job_report.specs.Facts.{is_clean};
ghost use Rattle.job_report.specs.Report.{facts_of};
ghost use Rattle.report_text.specs.Selftest.{selftest_of};
ghost use Rattle.clverify.specs.Reply.{IsVerdict};
ghost use Rattle.clverify.specs.Asked.{command_seen};
ghost use Rattle.clverify.specs.Commands.{self_test};
ghost use Rattle.clverify.specs.Commands.Selftest.{IsTrueSelftest, selftest_due, selftest_words, summed_up};
ghost use Rattle.job_inputs.specs.Inputs.{is_read_fault};
ghost use Rattle.clverify.specs.Settled.{IsReport};
ghost use Rattle.job_inputs.specs.Tasks.{made_task};

use crate::commands::Command;
use crate::commands::verify::status_by;
use crate::job::do_task;
use crate::reply::Reply;
use call_words::read_within;
use input_faults::Stopped;
use job_inputs::{TaskInputs, made_inputs};
use job_report::Facts;
use report_text::selftest_text;
use std::alloc::Global;
use std::sync::Wait;
use std::thread::Threads;
use vf_io::NoMemory;
use worker_gate::Gate;

/// The greatest number that a program is generated from, and the most digits of one.
const MOST_NUMBER: u32 = 999_999;

const NUMBER_PLACES: usize = 6;

/// How many workers verify a generated program.
const WORKERS: u32 = 3;

/// The command that the words after `selftest` stand for.
pub(crate) fn selftest_words(words: &[String]) -> Option<Command<'_>>
    ensures { option_map command_seen result ≡ option_map self_test (selftest_words (map string_bytes words.now)) }
{
    match words {
        [word] => Some(Command::Selftest {
            number: read_within(0, MOST_NUMBER, NUMBER_PLACES, word.as_str())?,
        }),
        _ => None,
    }
}

/// Verifies the program that is generated from a number, and sums up what is found.
pub(crate) fn selftest_report<R: Threads + Wait + Sync, G: Gate + Sync>(
    rt: &R,
    alloc: Global,
    number: u32,
    gate: &G,
) -> Result<Reply, Stopped>
    ensures report { IsReport result (selftest_due number) }
    ensures verdict { IfOk result (λ answer. IsVerdict answer.status) }
    ensures sound { IfOk result (λ answer. IsTrueSelftest number answer.status answer.text.items) }
    ensures memory { is_read_fault result ≡ false }
{
    match made_inputs(alloc, number) {
        Ok(inputs) => verify_made(rt, alloc, number, inputs, gate),
        Err(NoMemory) => Err(Stopped::NoMemory),
    }
}

/// Verifies the task that is generated from a number.
fn verify_made<R: Threads + Wait + Sync, G: Gate + Sync>(
    rt: &R,
    alloc: Global,
    number: u32,
    inputs: TaskInputs,
    gate: &G,
) -> Result<Reply, Stopped>
    requires { inputs ≡ made_task number }
    ensures report { IsReport result (selftest_due number) }
    ensures verdict { IfOk result (λ answer. IsVerdict answer.status) }
    ensures sound { IfOk result (λ answer. IsTrueSelftest number answer.status answer.text.items) }
    ensures memory { is_read_fault result ≡ false }
{
    match do_task(rt, alloc, inputs, WORKERS, gate) {
        Ok(facts) => summary(alloc, number, &facts),
        Err(NoMemory) => Err(Stopped::NoMemory),
    }
}

/// Sums up the facts of a job.
fn summary(alloc: Global, number: u32, facts: &Facts) -> Result<Reply, Stopped>
    ensures report { IsReport result (summed_up number facts.now) }
    ensures verdict { IfOk result (λ answer. IsVerdict answer.status) }
    ensures text { IfOk result (λ answer. answer.text.items ≡ selftest_of number facts.now.totals (is_clean facts.now.left)) }
    ensures memory { is_read_fault result ≡ false }
{
    let clean = facts.is_clean();
    match selftest_text(alloc, number, &facts.totals, clean) {
        Ok(text) => Ok(Reply {
            text,
            status: status_by(clean),
        }),
        Err(NoMemory) => Err(Stopped::NoMemory),
    }
}
