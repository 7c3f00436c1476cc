ghost use Rattle.std.specs.Prelude.{◌≡◌, IfOk, IfSome, false, map, option_map, string_bytes};
ghost use Rattle.vf_io.specs.Files.{bytes_of};
ghost use Rattle.clverify.specs.Asked.{command_seen};
ghost use Rattle.clverify.specs.Commands.{list_moves};
ghost use Rattle.clverify.specs.Commands.List.{IsTrueListing, list_due, list_words, listed};
ghost use Rattle.job_inputs.specs.Inputs.{is_read_fault};
ghost use Rattle.job_inputs.specs.Reads.{ReadsOnce};
ghost use Rattle.clverify.specs.Settled.{IsReport};

use crate::commands::Command;
use crate::reply::Reply;
use crate::status::Status;
use cl_moves::Program;
use input_faults::Stopped;
use job_inputs::read_moves;
use report_text::list_text;
use std::alloc::Global;
use vf_io::{NoMemory, Shelf};

/// The command that the words after `list` stand for.
pub(crate) fn list_words(words: &[String]) -> Option<Command<'_>>
    ensures { option_map command_seen result ≡ option_map list_moves (list_words (map string_bytes words.now)) }
{
    match words {
        [file] if !file.is_empty() => Some(Command::List {
            file: file.as_str(),
        }),
        _ => None,
    }
}

/// Lists the moves of a file.
pub(crate) fn list_report<S: Shelf>(
    alloc: Global,
    file: &str,
    shelf: &mut S,
) -> Result<Reply, Stopped>
    requires { S.allows shelf.old file.now }
    ensures report { IfSome (S.files shelf.old) (λ files. IsReport result (list_due file.now files)) }
    ensures clean { IfOk result (λ answer. answer.status ≡ Status.Clean) }
    ensures sound { IfSome (S.files shelf.old) (λ files. IfOk result (λ answer.
        IsTrueListing (bytes_of files file.now) answer.text.items)) }
    ensures read { ReadsOnce S.files S.faults S.failures (is_read_fault result) shelf.old shelf.new }
{
    match read_moves(alloc, file, shelf) {
        Ok(program) => listing(alloc, &program),
        Err(stopped) => Err(stopped),
    }
}

/// Lists the moves of a program.
fn listing(alloc: Global, program: &Program) -> Result<Reply, Stopped>
    ensures report { IsReport result (listed program.now) }
    ensures clean { IfOk result (λ answer. answer.status ≡ Status.Clean) }
    ensures memory { is_read_fault result ≡ false }
{
    match list_text(alloc, program) {
        Ok(text) => Ok(Reply {
            text,
            status: Status::Clean,
        }),
        Err(NoMemory) => Err(Stopped::NoMemory),
    }
}
