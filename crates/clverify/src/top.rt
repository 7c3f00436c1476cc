ghost use Rattle.std.specs.Prelude.{◌≡◌, ◌≢◌, ◌⊎◌, None, true, map, All, string_bytes};
ghost use Rattle.vf_io.specs.Causes.{Rose, one_more_failure};
ghost use Rattle.clverify.specs.Commands.{are_parsed, command_of, files_of};
ghost use Rattle.clverify.specs.Due.{due};
ghost use Rattle.clverify.specs.Headline.{Answers, Hands, IsComplete};
ghost use Rattle.clverify.specs.Truth.{TellsTruth};

use crate::commands::{read_command, report_on};
use crate::reply::{settle, write_answer};
use crate::status::Status;
use std::alloc::Global;
use std::sync::Wait;
use std::thread::Threads;
use vf_io::{NoMemory, Shelf, Sink};
use worker_gate::Gate;

/// The one line for words that are no command.
const USAGE: &[u8] =
    b"usage: clverify list CL | point CL X Y Z --depth M [--slabs N] | verify CL SETUP [--script F] [--workers N] \
    [--stock F] | selftest N | certify CL SETUP I | check CL SETUP I CERT | save CL SETUP [--script F] [--stock F]\n";

/// Does what the words ask for, over the files of the shelf, and writes the answer to the sink. Workers that verify a job enter the gate
/// before each turn. What is answered is the same whatever they do there, for any number of workers and any order of their turns.
pub fn run<R: Threads + Wait + Sync, S: Shelf, K: Sink, G: Gate + Sync>(
    rt: &R,
    alloc: Global,
    words: &[String],
    shelf: &mut S,
    sink: &mut K,
    gate: &G,
) -> Status
    requires { All (S.allows shelf.old) (files_of (command_of (map string_bytes words.now))) }
    // What is answered and written, for every file and all words.
    ensures answer { Answers result (due (S.files shelf.old) (command_of (map string_bytes words.now)))
        (K.written sink.old) (K.written sink.new) }
    // Each line by a put of its own, and none after one that failed.
    ensures hands { Hands result (due (S.files shelf.old) (command_of (map string_bytes words.now)))
        (K.written sink.old) (K.written sink.new) (K.pieces sink.old) (K.pieces sink.new) }
    // What was written is true: a listing of the file's own moves, marks that are true of the cutter, a report of the task that the
    // files stand for, true of the exact cutters line by line, a certificate for the move, or the verdict on one, by which the exact
    // cutter leaves part and fixtures untouched, or what is left of the stock; and the status is what the lines say.
    ensures sound { TellsTruth result (S.files shelf.old) (command_of (map string_bytes words.now))
        (K.written sink.old) (K.written sink.new) }
    // Words that are no command are answered without a read, and without memory where they don't begin with `verify`.
    ensures usage { command_of (map string_bytes words.now) ≡ None
        → (result ≡ Status.Usage) ⊎ ((result ≡ Status.WriteFault) ⊎ (result ≡ Status.NoMemory)) }
    ensures wanting { command_of (map string_bytes words.now) ≡ None → result ≡ Status.NoMemory
        → are_parsed (map string_bytes words.now) ≡ true }
    ensures usage_only { result ≡ Status.Usage → command_of (map string_bytes words.now) ≡ None }
    ensures no_read { command_of (map string_bytes words.now) ≡ None → shelf.new ≡ shelf.old }
    // A fault of reading is answered where one read failed, and only there.
    ensures read_fault { result ≡ Status.ReadFault → Rose (S.faults shelf.old) (S.faults shelf.new) }
    ensures one_failure { result ≡ Status.ReadFault → S.failures shelf.new ≡ one_more_failure (S.failures shelf.old) }
    ensures calm { result ≢ Status.ReadFault → S.failures shelf.new ≡ S.failures shelf.old }
    ensures write_fault { result ≡ Status.WriteFault → Rose (K.faults sink.old) (K.faults sink.new) }
    // Where no call outside fails, the whole answer comes, except when out of memory.
    ensures complete { ¬ (Rose (S.faults shelf.old) (S.faults shelf.new)) → ¬ (Rose (K.faults sink.old) (K.faults sink.new))
        → IsComplete result (due (S.files shelf.old) (command_of (map string_bytes words.now))) (K.written sink.old) (K.written sink.new) }
    ensures files { S.files shelf.new ≡ S.files shelf.old }
{
    match read_command(alloc, words) {
        Ok(Some(command)) => {
            let report = report_on(rt, alloc, &command, shelf, gate);
            settle(alloc, report, sink)
        }
        Ok(None) => write_answer(sink, USAGE, Status::Usage),
        Err(NoMemory) => Status::NoMemory,
    }
}
