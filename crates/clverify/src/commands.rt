//! The commands. A new one is a file of its own in commands/ (its words, its report) and a line in each of these: the variants
//! of `Command`, `read_command` and `report_on`.
ghost use Rattle.std.specs.Prelude.{◌≡◌, map, option_map, All, Some, true, IfErr, IfOk, IfSome, string_bytes};
ghost use Rattle.clverify.specs.Asked.{MayBeAsked, command_seen};
ghost use Rattle.clverify.specs.Commands.{are_parsed, command_of, files_of};
ghost use Rattle.clverify.specs.Due.{command_due};
ghost use Rattle.clverify.specs.Reply.{IsVerdict};
ghost use Rattle.job_inputs.specs.Inputs.{is_read_fault};
ghost use Rattle.job_inputs.specs.Reads.{ReadsOnce};
ghost use Rattle.clverify.specs.Settled.{IsReport};
ghost use Rattle.clverify.specs.Truth.{IsTrueText};

mod asked;
mod certify;
mod check;
mod list;
mod point;
mod question;
mod save;
mod selftest;
mod verify;

use crate::commands::asked::{CheckWords, MoveWords};
use crate::commands::certify::{certify_report, certify_words};
use crate::commands::check::{check_report, check_words};
use crate::commands::list::{list_report, list_words};
use crate::commands::point::{point_report, point_words};
use crate::commands::save::{SaveWords, save_report, save_words};
use crate::commands::selftest::{selftest_report, selftest_words};
use crate::commands::verify::{verify_command, verify_report};
use crate::reply::Reply;
use call_words::VerifyWords;
use input_faults::Stopped;
use point_marks::Question;
use std::alloc::Global;
use std::sync::Wait;
use std::thread::Threads;
use vf_io::{NoMemory, Shelf};
use worker_gate::Gate;

/// What the words after the program's name ask for.
#[derive(Clone, Copy)]
pub(crate) enum Command<'a> {
    /// Print the moves of a cutter location file.
    List { file: &'a str },
    /// Print the mark of a point against each move of the file.
    Point { file: &'a str, question: Question },
    /// Verify the file with a setup, and a script if there is one.
    Verify(VerifyWords<'a>),
    /// Verify a program that is generated from a number, with a setup of its own.
    Selftest { number: u32 },
    /// Make a certificate that a move touches neither part nor fixtures.
    Certify(MoveWords<'a>),
    /// Judge such a certificate.
    Check(CheckWords<'a>),
    /// Save what the moves leave of the stock.
    Save(SaveWords<'a>),
}

/// The command that words stand for, where they are one. Those after `verify` need memory.
pub(crate) fn read_command<'a>(
    alloc: Global,
    words: &'a [String],
) -> Result<Option<Command<'a>>, NoMemory>
    ensures command { IfOk result (λ command. option_map command_seen command ≡ command_of (map string_bytes words.now)) }
    ensures valid { IfOk result (λ command. IfSome command MayBeAsked) }
    ensures memory { IfErr result (λ _. are_parsed (map string_bytes words.now) ≡ true) }
{
    let [word, more @ ..] = words else {
        return Ok(None);
    };
    match word.as_str() {
        "list" => Ok(list_words(more)),
        "point" => Ok(point_words(more)),
        "verify" => verify_command(alloc, more),
        "selftest" => Ok(selftest_words(more)),
        "certify" => Ok(certify_words(more)),
        "check" => Ok(check_words(more)),
        "save" => Ok(save_words(more)),
        _ => Ok(None),
    }
}

/// The report of a command, or what stops it.
pub(crate) fn report_on<R: Threads + Wait + Sync, S: Shelf, G: Gate + Sync>(
    rt: &R,
    alloc: Global,
    command: &Command<'_>,
    shelf: &mut S,
    gate: &G,
) -> Result<Reply, Stopped>
    requires asked { MayBeAsked command.now }
    requires allowed { All (S.allows shelf.old) (files_of (Some (command_seen command.now))) }
    ensures report { IfSome (command_due (S.files shelf.old) (command_seen command.now)) (IsReport result) }
    ensures verdict { IfOk result (λ answer. IsVerdict answer.status) }
    ensures sound { IfSome (S.files shelf.old) (λ files. IfOk result (λ answer.
        IsTrueText answer.status files (command_seen command.now) answer.text.items)) }
    ensures read { ReadsOnce S.files S.faults S.failures (is_read_fault result) shelf.old shelf.new }
{
    match command {
        Command::List { file } => list_report(alloc, file, shelf),
        Command::Point { file, question } => point_report(alloc, file, question, shelf),
        Command::Verify(said) => verify_report(rt, alloc, said, shelf, gate),
        Command::Selftest { number } => selftest_report(rt, alloc, *number, gate),
        Command::Certify(said) => certify_report(alloc, said, shelf),
        Command::Check(said) => check_report(alloc, said, shelf),
        Command::Save(said) => save_report(rt, alloc, said, shelf, gate),
    }
}
