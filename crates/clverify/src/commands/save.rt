ghost use Rattle.std.specs.Prelude.{◌≡◌, IfOk, IfSome, false, map, option_map, string_bytes, Ok};
ghost use Rattle.call_words.specs.Call.{named};
ghost use Rattle.clverify.specs.Asked.{command_seen, more_seen, save_seen};
ghost use Rattle.clverify.specs.Commands.{save_stock};
ghost use Rattle.clverify.specs.Commands.Save.{IsTrueSaving, SavesTruly, both_files, file_by, one_file, save_call, save_due, save_words, saved};
ghost use Rattle.clverify.specs.Commands.Save.{stock_answered};
ghost use Rattle.job_inputs.specs.Inputs.{is_read_fault};
ghost use Rattle.job_inputs.specs.Reads.{ReadsOnce};
ghost use Rattle.stock_file.specs.Reading.{stock_of};
ghost use Rattle.stock_file.specs.Saved.{IsSaved};
ghost use Rattle.clverify.specs.Settled.{IsReport};

use crate::commands::Command;
use crate::job::remaining_stock_of;
use crate::reply::Reply;
use crate::status::Status;
use call_words::read_name;
use input_faults::Stopped;
use job_inputs::{TaskInputs, read_task};
use std::alloc::Global;
use std::sync::Wait;
use std::thread::Threads;
use stock_file::SavedStock;
use vf_io::{NoMemory, Shelf};
use worker_gate::Gate;

/// The files of a script and of a saved stock, where there are some.
#[derive(Clone, Copy)]
pub(crate) struct MoreFiles<'a> {
    pub(crate) script: Option<&'a str>,
    pub(crate) stock: Option<&'a str>,
}

/// What is saved: the program's file, the setup's, and those.
#[derive(Clone, Copy)]
pub(crate) struct SaveWords<'a> {
    pub(crate) file: &'a str,
    pub(crate) setup: &'a str,
    pub(crate) more: MoreFiles<'a>,
}

/// The command that the words after `save` stand for.
pub(crate) fn save_words(words: &[String]) -> Option<Command<'_>>
    ensures { option_map command_seen result ≡ option_map save_stock (save_words (map string_bytes words.now)) }
{
    match words {
        [file, setup] => {
            let none = MoreFiles {
                script: None,
                stock: None,
            };
            Some(Command::Save(read_save(file.as_str(), setup.as_str(), Some(none))?))
        }
        [file, setup, option, name] => {
            let more = read_one(option.as_str(), name.as_str());
            Some(Command::Save(read_save(file.as_str(), setup.as_str(), more)?))
        }
        [file, setup, first, script, second, stock] => {
            let script = read_option("--script", first.as_str(), script.as_str());
            let stock = read_option("--stock", second.as_str(), stock.as_str());
            let more = read_both(script, stock);
            Some(Command::Save(read_save(file.as_str(), setup.as_str(), more)?))
        }
        _ => None,
    }
}

/// What is saved, where two words are names and the options have their files.
fn read_save<'a>(
    file: &'a str,
    setup: &'a str,
    more: Option<MoreFiles<'a>>,
) -> Option<SaveWords<'a>>
    ensures { option_map save_seen result ≡ save_call (named file.now) (named setup.now) (option_map more_seen more.entry) }
{
    Some(SaveWords {
        file: read_name(file)?,
        setup: read_name(setup)?,
        more: more?,
    })
}

/// The file of an option, where its word has this name.
fn read_option<'a>(option: &str, word: &str, file: &'a str) -> Option<&'a str>
    ensures { option_map (λ name. name.now) result ≡ file_by option.now word.now file.now }
{
    if word == option {
        read_name(file)
    } else {
        None
    }
}

/// One option with its file.
fn read_one<'a>(word: &str, file: &'a str) -> Option<MoreFiles<'a>>
    ensures { option_map more_seen result ≡ one_file word.now file.now }
{
    if word == "--script" {
        return Some(MoreFiles {
            script: Some(read_name(file)?),
            stock: None,
        });
    }
    Some(MoreFiles {
        script: None,
        stock: Some(read_option("--stock", word, file)?),
    })
}

/// Both options, where each has its file.
fn read_both<'a>(script: Option<&'a str>, stock: Option<&'a str>) -> Option<MoreFiles<'a>>
    ensures { option_map more_seen result
        ≡ both_files (option_map (λ name. name.now) script.entry) (option_map (λ name. name.now) stock.entry) }
{
    Some(MoreFiles {
        script: Some(script?),
        stock: Some(stock?),
    })
}

/// Saves what the moves of a file leave of the stock.
pub(crate) fn save_report<R: Threads + Wait + Sync, S: Shelf, G: Gate + Sync>(
    rt: &R,
    alloc: Global,
    said: &SaveWords<'_>,
    shelf: &mut S,
    gate: &G,
) -> Result<Reply, Stopped>
    requires file { S.allows shelf.old said.now.file.now }
    requires setup { S.allows shelf.old said.now.setup.now }
    requires stock { IfSome said.now.more.stock (λ name. S.allows shelf.old name.now) }
    requires script { IfSome said.now.more.script (λ name. S.allows shelf.old name.now) }
    ensures report { IfSome (S.files shelf.old) (λ files. IsReport result (save_due (save_seen said.now) files)) }
    ensures clean { IfOk result (λ answer. answer.status ≡ Status.Clean) }
    ensures sound { IfSome (S.files shelf.old) (λ files. IfOk result (λ answer.
        IsTrueSaving (save_seen said.now) files answer.text.items)) }
    ensures read { ReadsOnce S.files S.faults S.failures (is_read_fault result) shelf.old shelf.new }
{
    let more = said.more;
    match read_task(alloc, said.file, said.setup, more.stock, more.script, shelf) {
        Ok(inputs) => save_task(rt, alloc, inputs, gate),
        Err(stopped) => Err(stopped),
    }
}

/// Saves what is left of the stock of what was read.
fn save_task<R: Threads + Wait + Sync, G: Gate + Sync>(
    rt: &R,
    alloc: Global,
    inputs: TaskInputs,
    gate: &G,
) -> Result<Reply, Stopped>
    ensures report { IsReport result (saved inputs) }
    ensures clean { IfOk result (λ answer. answer.status ≡ Status.Clean) }
    ensures sound { IfOk result (λ answer. SavesTruly inputs answer.text.items) }
    ensures memory { is_read_fault result ≡ false }
{
    match remaining_stock_of(rt, alloc, inputs, gate) {
        Ok(stock) => stock_reply(&stock),
        Err(NoMemory) => Err(Stopped::NoMemory),
    }
}

/// Answers with the text of a saved stock.
fn stock_reply(stock: &SavedStock) -> Result<Reply, Stopped>
    ensures report { IsReport result (stock_answered stock.now) }
    ensures clean { IfOk result (λ answer. answer.status ≡ Status.Clean) }
    ensures stands_for { IfOk result (λ answer. stock_of answer.text.items ≡ Ok stock.now) }
    ensures valid { IfOk result (λ _. IsSaved stock.now) }
    ensures memory { is_read_fault result ≡ false }
{
    match stock.saved_text() {
        Ok(text) => Ok(Reply {
            text,
            status: Status::Clean,
        }),
        Err(NoMemory) => Err(Stopped::NoMemory),
    }
}
