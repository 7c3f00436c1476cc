ghost use Rattle.std.specs.Prelude.{◌≡◌, IfOk, IfSome, false, map, option_map, string_bytes};
ghost use Rattle.report_text.specs.CertAnswers.{made_cert_text};
ghost use Rattle.job_inputs.specs.Asked.{IsNumbered};
ghost use Rattle.job_inputs.specs.Inputs.{is_read_fault};
ghost use Rattle.job_inputs.specs.Reads.{ReadsOnce};
ghost use Rattle.clverify.specs.Asked.{command_seen, move_seen};
ghost use Rattle.clverify.specs.Commands.{certify_move};
ghost use Rattle.clverify.specs.Commands.Certify.{CertifiesTruly, IsTrueCertification, cert_answered, certified, certify_due, certify_words};
ghost use Rattle.clverify.specs.Reply.{IsVerdict};
ghost use Rattle.clverify.specs.Settled.{IsReport};

use crate::certificates::make_for;
use crate::commands::Command;
use crate::commands::asked::{MoveWords, read_move};
use crate::commands::verify::status_by;
use crate::reply::Reply;
use cert_lines::Cert;
use input_faults::Stopped;
use job_inputs::{AskedInputs, read_asked};
use report_text::made_cert_text;
use std::alloc::Global;
use vf_io::{NoMemory, Shelf};

/// The command that the words after `certify` stand for.
pub(crate) fn certify_words(words: &[String]) -> Option<Command<'_>>
    ensures { option_map command_seen result ≡ option_map certify_move (certify_words (map string_bytes words.now)) }
{
    match words {
        [file, setup, number] => Some(Command::Certify(read_move(
            file.as_str(),
            setup.as_str(),
            number.as_str(),
        )?)),
        _ => None,
    }
}

/// Answers with a certificate for a move of a file, made by a setup, or that there is none.
pub(crate) fn certify_report<S: Shelf>(
    alloc: Global,
    said: &MoveWords<'_>,
    shelf: &mut S,
) -> Result<Reply, Stopped>
    requires file { S.allows shelf.old said.now.file.now }
    requires setup { S.allows shelf.old said.now.setup.now }
    ensures report { IfSome (S.files shelf.old) (λ files. IsReport result (certify_due (move_seen said.now) files)) }
    ensures verdict { IfOk result (λ answer. IsVerdict answer.status) }
    ensures sound { IfSome (S.files shelf.old) (λ files. IfOk result (λ answer.
        IsTrueCertification (move_seen said.now) files answer.status answer.text.items)) }
    ensures read { ReadsOnce S.files S.faults S.failures (is_read_fault result) shelf.old shelf.new }
{
    match read_asked(alloc, said.file, said.setup, said.number, shelf) {
        Ok(asked) => certify_asked(alloc, &asked),
        Err(stopped) => Err(stopped),
    }
}

/// Answers for a move that was found.
fn certify_asked(alloc: Global, asked: &AskedInputs) -> Result<Reply, Stopped>
    requires { IsNumbered asked.now }
    ensures report { IsReport result (certified asked.now) }
    ensures verdict { IfOk result (λ answer. IsVerdict answer.status) }
    ensures sound { IfOk result (λ answer. CertifiesTruly asked.now answer.status answer.text.items) }
    ensures memory { is_read_fault result ≡ false }
{
    // The call that returns the grid says that it is valid.
    let _grid = asked.grid();
    match make_for(alloc, asked) {
        Ok(made) => cert_reply(alloc, &made),
        Err(NoMemory) => Err(Stopped::NoMemory),
    }
}

/// Answers with the certificate that was made, or that there is none.
fn cert_reply(alloc: Global, made: &Option<Cert>) -> Result<Reply, Stopped>
    ensures report { IsReport result (cert_answered made.now) }
    ensures verdict { IfOk result (λ answer. IsVerdict answer.status) }
    ensures text { IfOk result (λ answer. answer.text.items ≡ made_cert_text made.now) }
    ensures memory { is_read_fault result ≡ false }
{
    match made_cert_text(alloc, made) {
        Ok(text) => Ok(Reply {
            text,
            status: status_by(made.is_some()),
        }),
        Err(NoMemory) => Err(Stopped::NoMemory),
    }
}
