ghost use Rattle.std.specs.Prelude.{◌≡◌, IfOk, IfSome, IsTrue, false, map, option_map, string_bytes};
ghost use Rattle.job_report.specs.Facts.{are_answered};
ghost use Rattle.report_text.specs.Report.{report_of};
ghost use Rattle.call_words.specs.Call.{call_of};
ghost use Rattle.call_words.specs.Seen.{call_seen};
ghost use Rattle.clverify.specs.Reply.{IsVerdict};
ghost use Rattle.clverify.specs.Asked.{AreWorkers, MayBeAsked, command_seen};
ghost use Rattle.clverify.specs.Commands.{verify_moves};
ghost use Rattle.clverify.specs.Commands.Verify.{IsTrueVerification, ReportsTruly, reported, status_by, verified, verify_due};
ghost use Rattle.job_inputs.specs.Inputs.{is_read_fault};
ghost use Rattle.job_inputs.specs.Reads.{ReadsOnce};
ghost use Rattle.clverify.specs.Settled.{IsReport};

use crate::commands::Command;
use crate::job::do_task;
use crate::reply::Reply;
use crate::status::Status;
use call_words::{VerifyWords, verify_words};
use input_faults::Stopped;
use job_inputs::{TaskInputs, read_task};
use job_report::Facts;
use report_text::report_text;
use std::alloc::Global;
use std::sync::Wait;
use std::thread::Threads;
use vf_io::{NoMemory, Shelf};
use worker_gate::Gate;

/// The command that the words after `verify` stand for.
pub(crate) fn verify_command<'a>(
    alloc: Global,
    words: &'a [String],
) -> Result<Option<Command<'a>>, NoMemory>
    ensures command { IfOk result (λ command. option_map command_seen command
        ≡ option_map verify_moves (call_of (map string_bytes words.now))) }
    ensures valid { IfOk result (λ command. IfSome command MayBeAsked) }
{
    match verify_words(alloc, words) {
        Ok(Some(said)) => Ok(Some(Command::Verify(said))),
        Ok(None) => Ok(None),
        Err(NoMemory) => Err(NoMemory),
    }
}

/// Verifies a file with a setup, and a saved stock and a script if they are named, by the number of workers that the words give.
pub(crate) fn verify_report<R: Threads + Wait + Sync, S: Shelf, G: Gate + Sync>(
    rt: &R,
    alloc: Global,
    said: &VerifyWords<'_>,
    shelf: &mut S,
    gate: &G,
) -> Result<Reply, Stopped>
    requires file { S.allows shelf.old said.now.file.now }
    requires setup { S.allows shelf.old said.now.setup.now }
    requires stock { IfSome said.now.stock (λ name. S.allows shelf.old name.now) }
    requires script { IfSome said.now.script (λ name. S.allows shelf.old name.now) }
    requires workers { AreWorkers said.now.workers }
    ensures report { IfSome (S.files shelf.old) (λ files. IsReport result (verify_due (call_seen said.now) files)) }
    ensures verdict { IfOk result (λ answer. IsVerdict answer.status) }
    ensures sound { IfSome (S.files shelf.old) (λ files. IfOk result (λ answer.
        IsTrueVerification (call_seen said.now) files answer.status answer.text.items)) }
    ensures read { ReadsOnce S.files S.faults S.failures (is_read_fault result) shelf.old shelf.new }
{
    match read_task(alloc, said.file, said.setup, said.stock, said.script, shelf) {
        Ok(inputs) => verify_task(rt, alloc, inputs, said.workers, gate),
        Err(stopped) => Err(stopped),
    }
}

/// Verifies what was read.
fn verify_task<R: Threads + Wait + Sync, G: Gate + Sync>(
    rt: &R,
    alloc: Global,
    inputs: TaskInputs,
    workers: u32,
    gate: &G,
) -> Result<Reply, Stopped>
    requires { AreWorkers workers }
    ensures report { IsReport result (verified inputs) }
    ensures verdict { IfOk result (λ answer. IsVerdict answer.status) }
    ensures sound { IfOk result (λ answer. ReportsTruly inputs answer.status answer.text.items) }
    ensures memory { is_read_fault result ≡ false }
{
    match do_task(rt, alloc, inputs, workers, gate) {
        Ok(facts) => report(alloc, &facts),
        Err(NoMemory) => Err(Stopped::NoMemory),
    }
}

/// Reports the facts of a job.
fn report(alloc: Global, facts: &Facts) -> Result<Reply, Stopped>
    requires { IsTrue (are_answered facts.now.answers) }
    ensures report { IsReport result (reported facts.now) }
    ensures verdict { IfOk result (λ answer. IsVerdict answer.status) }
    ensures text { IfOk result (λ answer. answer.text.items ≡ report_of facts.now) }
    ensures memory { is_read_fault result ≡ false }
{
    match report_text(alloc, facts) {
        Ok(text) => Ok(Reply {
            text,
            status: status_by(facts.is_clean()),
        }),
        Err(NoMemory) => Err(Stopped::NoMemory),
    }
}

/// Findings, where some move that is left isn't safe.
pub(crate) fn status_by(clean: bool) -> Status
    ensures status { result ≡ status_by clean }
    ensures verdict { IsVerdict result }
{
    if clean {
        Status::Clean
    } else {
        Status::Findings
    }
}
