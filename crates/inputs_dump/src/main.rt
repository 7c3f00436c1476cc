//! Reads a setup or a script, and writes what was read of it, a fact a line; `bench/run` times it.
#![tactic(auto)]

mod ending;
mod files;
mod line;
mod question;
mod script_page;
mod setup_page;

use crate::ending::Ending;
use crate::question::answer;
use report_text::refusal_text;
use std::alloc::Global;
use std::process::ExitCode;
use std::{env, io};
use vf_io::{FolderShelf, NoMemory, StdSink, put_lines};

const USAGE: &[u8] =
    b"usage: inputs_dump setup SETUP [--count] | script SETUP MOVES [SCRIPT [--count]]\n";

fn main(rt: HostRuntime) -> ExitCode {
    let alloc = rt.alloc();
    let mut shelf = FolderShelf::new(&rt);
    let words: Vec<String> = match env::args(&rt) {
        Ok(words) => match words.skip(1).collect(alloc) {
            Ok(words) => words,
            Err(_) => return ExitCode::from(Ending::NoMemory.code()),
        },
        Err(_) => Vec::new(alloc),
    };
    let (text, code) = match written(alloc, answer(alloc, words.as_slice(), &mut shelf)) {
        Ok(written) => written,
        Err(NoMemory) => return ExitCode::from(Ending::NoMemory.code()),
    };
    let Ok(mut sink) = StdSink::new(alloc, io::writer(&rt)) else {
        return ExitCode::from(Ending::NoMemory.code());
    };
    if put_lines(&mut sink, text.as_slice()).is_err() || sink.flush().is_err() {
        return ExitCode::from(Ending::WRITE_FAULT);
    }
    ExitCode::from(code)
}

/// What is written in the end, and the exit code.
fn written(alloc: Global, answer: Result<Vec<u8>, Ending>) -> Result<(Vec<u8>, u8), NoMemory> {
    let ending = match answer {
        Ok(text) => return Ok((text, 0)),
        Err(ending) => ending,
    };
    let text = match &ending {
        Ending::Usage => Vec::from_slice(alloc, USAGE)?,
        Ending::Refused(fault) => refusal_text(alloc, fault)?,
        Ending::ReadFault => Vec::new(alloc),
        Ending::NoMemory => return Err(NoMemory),
    };
    Ok((text, ending.code()))
}
