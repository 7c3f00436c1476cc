//! The program: the verifier over the words after its path, the current folder and standard output.
#![tactic(auto)]

use clverify::arguments::read_words;
use clverify::status::Status;
use clverify::top::run;
use std::io;
use std::process::ExitCode;
use vf_io::{FolderShelf, StdSink};
use worker_gate::Open;

fn main(rt: HostRuntime) -> ExitCode {
    let alloc = rt.alloc();
    let Ok(words) = read_words(alloc, &rt) else {
        return ExitCode::from(Status::NoMemory);
    };
    let mut shelf = FolderShelf::new(&rt);
    let Ok(mut sink) = StdSink::new(alloc, io::writer(&rt)) else {
        return ExitCode::from(Status::NoMemory);
    };
    let status = run(&rt, alloc, words.as_slice(), &mut shelf, &mut sink, &Open);
    match sink.flush() {
        Ok(()) => ExitCode::from(status),
        Err(_) => ExitCode::from(Status::WriteFault),
    }
}
