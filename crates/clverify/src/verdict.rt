ghost use Rattle.std.specs.Prelude.{◌≡◌, ◌≢◌, None, true, map, string_bytes};
ghost use Rattle.clverify.specs.Commands.{are_parsed, command_of};
ghost use Rattle.clverify.specs.Due.{due};
ghost use Rattle.clverify.specs.Headline.{IsComplete};
ghost use Rattle.clverify.specs.Truth.{TellsTruth};
ghost use Rattle.clverify.specs.Verdict.{files_told};

use crate::status::Status;
use crate::top::run;
use std::alloc::Global;
use std::sync::Wait;
use std::thread::Threads;
use vf_io::{SureShelf, SureSink};
use worker_gate::Open;

/// How a call with these words ends over these files, where nothing outside can fail and nobody reads what it writes. A name that none
/// of the files has is taken as an empty file.
pub fn verdict_of<R: Threads + Wait + Sync>(
    rt: &R,
    alloc: Global,
    words: &[String],
    files: Vec<(String, Vec<u8>)>,
) -> Status
    // The status that is due, or none when out of memory.
    ensures complete { IsComplete result (due (files_told files.items) (command_of (map string_bytes words.now))) None None }
    // Where it is a verdict, there is a true text that goes with it.
    ensures sound { TellsTruth result (files_told files.items) (command_of (map string_bytes words.now)) None None }
    ensures usage_only { result ≡ Status.Usage → command_of (map string_bytes words.now) ≡ None }
    ensures wanting { command_of (map string_bytes words.now) ≡ None → result ≡ Status.NoMemory
        → are_parsed (map string_bytes words.now) ≡ true }
    ensures reads { result ≢ Status.ReadFault }
    ensures writes { result ≢ Status.WriteFault }
{
    let mut shelf = SureShelf::new(files);
    run(rt, alloc, words, &mut shelf, &mut SureSink::new(), &Open)
}
