ghost use Rattle.std.specs.Prelude.{◌≡◌, IfOk, IfSome, false, map, option_map, string_bytes};
ghost use Rattle.vf_io.specs.Files.{bytes_of};
ghost use Rattle.cert_lines.specs.Certificates.{IsInRange};
ghost use Rattle.report_text.specs.CertAnswers.{cert_verdict_text};
ghost use Rattle.job_inputs.specs.Asked.{cert_for};
ghost use Rattle.job_inputs.specs.Inputs.{is_read_fault};
ghost use Rattle.job_inputs.specs.Reads.{ReadsOnce};
ghost use Rattle.clverify.specs.Asked.{check_seen, command_seen};
ghost use Rattle.clverify.specs.Commands.{check_cert};
ghost use Rattle.clverify.specs.Commands.Check.{IsTrueCheck, IsTrueVerdict, JudgesTruly, cert_judged, check_due, check_words};
ghost use Rattle.clverify.specs.Commands.Check.{is_accepted, verdict_answered};
ghost use Rattle.clverify.specs.Reply.{IsVerdict, answer_of};
ghost use Rattle.clverify.specs.Settled.{IsReport};

use crate::certificates::judge_for;
use crate::commands::Command;
use crate::commands::asked::{CheckWords, read_check};
use crate::commands::verify::status_by;
use crate::reply::Reply;
use cert_boxes::Verdict;
use cert_lines::Cert;
use input_faults::Stopped;
use job_inputs::{AskedInputs, read_asked, read_certificate};
use report_text::cert_verdict_text;
use std::alloc::Global;
use vf_io::{NoMemory, Shelf};

/// The command that the words after `check` stand for.
pub(crate) fn check_words(words: &[String]) -> Option<Command<'_>>
    ensures { option_map command_seen result ≡ option_map check_cert (check_words (map string_bytes words.now)) }
{
    match words {
        [file, setup, number, cert] => Some(Command::Check(read_check(
            file.as_str(),
            setup.as_str(),
            number.as_str(),
            cert.as_str(),
        )?)),
        _ => None,
    }
}

/// Judges a certificate for a move of a file, made by a setup.
pub(crate) fn check_report<S: Shelf>(
    alloc: Global,
    said: &CheckWords<'_>,
    shelf: &mut S,
) -> Result<Reply, Stopped>
    requires file { S.allows shelf.old said.now.move_asked.file.now }
    requires setup { S.allows shelf.old said.now.move_asked.setup.now }
    requires cert { S.allows shelf.old said.now.cert.now }
    ensures report { IfSome (S.files shelf.old) (λ files. IsReport result (check_due (check_seen said.now) files)) }
    ensures verdict { IfOk result (λ answer. IsVerdict answer.status) }
    ensures sound { IfSome (S.files shelf.old) (λ files. IfOk result (λ answer.
        IsTrueCheck (check_seen said.now) files answer.status answer.text.items)) }
    ensures read { ReadsOnce S.files S.faults S.failures (is_read_fault result) shelf.old shelf.new }
{
    let asked = said.move_asked;
    match read_asked(alloc, asked.file, asked.setup, asked.number, shelf) {
        Ok(asked) => check_asked(alloc, &asked, said.cert, shelf),
        Err(stopped) => Err(stopped),
    }
}

/// Judges a certificate for a move that was found.
fn check_asked<S: Shelf>(
    alloc: Global,
    asked: &AskedInputs,
    cert: &str,
    shelf: &mut S,
) -> Result<Reply, Stopped>
    requires { S.allows shelf.old cert.now }
    ensures report { IfSome (S.files shelf.old) (λ files.
        IsReport result (answer_of cert_judged (cert_for (bytes_of files cert.now) asked.now))) }
    ensures verdict { IfOk result (λ answer. IsVerdict answer.status) }
    ensures sound { IfSome (S.files shelf.old) (λ files. IfOk result (λ answer.
        IsTrueVerdict (cert_for (bytes_of files cert.now) asked.now) answer.status answer.text.items)) }
    ensures read { ReadsOnce S.files S.faults S.failures (is_read_fault result) shelf.old shelf.new }
{
    match read_certificate(alloc, cert, asked.grid(), shelf) {
        Ok(cert) => judge_asked(alloc, asked, &cert),
        Err(stopped) => Err(stopped),
    }
}

/// Judges a certificate that was read.
fn judge_asked(alloc: Global, asked: &AskedInputs, cert: &Cert) -> Result<Reply, Stopped>
    requires { IsInRange asked.now.task.job.plan.grid cert.now }
    ensures report { IsReport result (cert_judged record { asked = asked.now; cert = cert.now }) }
    ensures verdict { IfOk result (λ answer. IsVerdict answer.status) }
    ensures sound { IfOk result (λ answer. JudgesTruly record { asked = asked.now; cert = cert.now } answer.status answer.text.items) }
    ensures memory { is_read_fault result ≡ false }
{
    match judge_for(alloc, asked, cert) {
        Ok(verdict) => verdict_reply(alloc, verdict),
        Err(NoMemory) => Err(Stopped::NoMemory),
    }
}

/// Answers with a verdict.
fn verdict_reply(alloc: Global, verdict: Verdict) -> Result<Reply, Stopped>
    ensures report { IsReport result (verdict_answered verdict) }
    ensures verdict { IfOk result (λ answer. IsVerdict answer.status) }
    ensures text { IfOk result (λ answer. answer.text.items ≡ cert_verdict_text verdict) }
    ensures memory { is_read_fault result ≡ false }
{
    match cert_verdict_text(alloc, verdict) {
        Ok(text) => Ok(Reply {
            text,
            status: status_by(is_accepted(verdict)),
        }),
        Err(NoMemory) => Err(Stopped::NoMemory),
    }
}

/// Whether it is that the certificate is accepted.
fn is_accepted(verdict: Verdict) -> bool
    ensures { result ≡ is_accepted verdict }
{
    match verdict {
        Verdict::Accepted => true,
        _ => false,
    }
}
