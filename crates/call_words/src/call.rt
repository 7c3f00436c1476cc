ghost use Rattle.std.specs.Prelude.{◌≡◌, ◌≤◌, IfOk, IfSome, map, option_and_then, option_map, string_bytes};
ghost use Rattle.call_words.specs.Call.{call_in, call_of, file_in, most_workers, named, workers_in};
ghost use Rattle.call_words.specs.Seen.{call_seen, values_seen};

use crate::command::{Values, read_values};
use crate::count::read_within;
use std::alloc::Global;
use vf_io::NoMemory;

/// The most workers, and how many there are where no word says so.
const MOST_WORKERS: u32 = 16;

const USUAL_WORKERS: u32 = 1;

/// The most digits of a number of workers.
const WORKER_PLACES: usize = 2;

/// What the words after `verify` say: the files that they name, and the number of workers.
#[derive(Clone, Copy)]
pub struct VerifyWords<'a> {
    pub file: &'a str,
    pub setup: &'a str,
    pub script: Option<&'a str>,
    pub workers: u32,
    pub stock: Option<&'a str>,
}

/// What the words after `verify` say, where they are words of its own.
pub fn verify_words<'a>(
    alloc: Global,
    words: &'a [String],
) -> Result<Option<VerifyWords<'a>>, NoMemory>
    ensures call { IfOk result (λ call. option_map call_seen call ≡ call_of (map string_bytes words.now)) }
    ensures some { IfOk result (λ call. IfSome call (λ said. 1 ≤ said.workers)) }
    ensures few { IfOk result (λ call. IfSome call (λ said. said.workers ≤ most_workers)) }
{
    match read_values(alloc, words) {
        Ok(Some(values)) => Ok(read_call(&values)),
        Ok(None) => Ok(None),
        Err(NoMemory) => Err(NoMemory),
    }
}

/// The call that these values make.
fn read_call<'a>(values: &Values<'a>) -> Option<VerifyWords<'a>>
    ensures call { option_map call_seen result ≡ call_in (values_seen values.now) }
    ensures some { IfSome result (λ said. 1 ≤ said.workers) }
    ensures few { IfSome result (λ said. said.workers ≤ most_workers) }
{
    Some(VerifyWords {
        file: read_given(values.file)?,
        setup: read_given(values.setup)?,
        script: read_file(values.script)?,
        workers: read_workers(values.workers)?,
        stock: read_file(values.stock)?,
    })
}

/// A word that has to be there, and is a name.
fn read_given(word: Option<&str>) -> Option<&str>
    ensures { option_map (λ name. name.now) result ≡ option_and_then named (option_map (λ word. word.now) word.entry) }
{
    read_name(word?)
}

/// A word that is a name: one that has a byte.
pub fn read_name(word: &str) -> Option<&str>
    ensures { option_map (λ name. name.now) result ≡ named word.now }
{
    if word.is_empty() { None } else { Some(word) }
}

/// The file that an option names: none where no word gives the option.
pub fn read_file(word: Option<&str>) -> Option<Option<&str>>
    ensures { option_map (λ file. option_map (λ name. name.now) file) result ≡ file_in (option_map (λ name. name.now) word.entry) }
{
    match word {
        Some(word) => Some(Some(read_name(word)?)),
        None => Some(None),
    }
}

/// The number of workers that the words give.
fn read_workers(word: Option<&str>) -> Option<u32>
    ensures workers { result ≡ workers_in (option_map (λ word. word.now) word.entry) }
    ensures some { IfSome result (λ n. 1 ≤ n) }
    ensures few { IfSome result (λ n. n ≤ most_workers) }
{
    match word {
        Some(word) => read_within(1, MOST_WORKERS, WORKER_PLACES, word),
        None => Some(USUAL_WORKERS),
    }
}
