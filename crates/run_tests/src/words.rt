use crate::answered::{USAGE, is_answered};
use clverify::arguments::read_words;
use clverify::status::Status;
use clverify::verdict::verdict_of;
use std::alloc::Global;
use std::env::{Env, FillError};
use std::sync::Wait;
use std::test::Fail;
use std::thread::Threads;
use vf_io::NoMemory;

/// Whether these words, parted by blanks, are a command: over no files, which stand for empty ones, a call that is none gets the usage
/// line, and no other does.
fn is_command<R: Threads + Wait + Sync>(
    rt: &R,
    alloc: Global,
    words: &str,
) -> Result<bool, NoMemory> {
    let mut texts = Vec::new(alloc);
    for word in words.split(' ') {
        texts.push(String::from_str(alloc, word)?)?;
    }
    match verdict_of(rt, alloc, &texts, Vec::new(alloc)) {
        Status::NoMemory => Err(NoMemory),
        status => Ok(status.code() != 2),
    }
}

/// Words that are a command.
const COMMANDS: [&str; 23] = [
    "list a",
    "list --x",
    "verify a s.toml",
    "verify a s --script f",
    "verify --workers=2 a --script f s",
    "verify -- --script s",
    "selftest 0",
    "selftest 000007",
    "selftest 999999",
    "point a 0 0 0 --depth 0",
    "point a 0 0 0 --depth 010",
    "point a 0 0 0 --depth 2 --slabs 1",
    "point a 0 0 0 --depth 2 --slabs 256",
    "point a 1000.0004 -1000 +.5E2 --depth 10",
    "certify a s 1",
    "certify a s 00000",
    "check a s 99999 --c",
    "verify a s --stock t",
    "save a s",
    "save a s --script f",
    "save a s --stock --t",
    "save a s --script --stock",
    "save a s --script f --stock t",
];

/// Words that are none.
const NO_COMMANDS: [&str; 53] = [
    "list",
    "list ",
    "list a b",
    "LIST a",
    "",
    "--help",
    "verify --script s",
    "VERIFY a s",
    "verify a",
    "verify  s",
    "verify a s f",
    "verify a s --script",
    "verify a s --script ",
    "verify a s --script f g",
    "selftest",
    "selftest 1000000",
    "selftest 0000007",
    "selftest 1 2",
    "POINT a 0 0 0 --depth 0",
    "point  0 0 0 --depth 0",
    "point a 1000.001 0 0 --depth 0",
    "point a 0 -1000.0006 0 --depth 0",
    "point a 0 0 1,5 --depth 0",
    "point a 0 0 --depth 0",
    "point a 0 0 0 --depth",
    "point a 0 0 0 --depth 11",
    "point a 0 0 0 --depth 0010",
    "point a 0 0 0 --depth -1",
    "point a 0 0 0 --depth=2",
    "point a 0 0 0 --slabs 4 --depth 2",
    "point a 0 0 0 --depth 2 --slabs 0",
    "point a 0 0 0 --depth 2 --slabs 257",
    "point a 0 0 0 --depth 2 --slabs 4 5",
    "certify a s",
    "certify  s 1",
    "certify a s 000001",
    "certify a s -1",
    "certify a s 1 c",
    "check a s 1",
    "check a s 1 ",
    "check a s 1 c d",
    "CHECK a s 1 c",
    "verify a s --stock",
    "save a",
    "save  s",
    "save a s t",
    "save a s --script",
    "save a s --stock ",
    "save a s --workers 1",
    "save a s --stock t --script f",
    "save a s --stock=t",
    "save a s --script f --stock",
    "save a s --script f --stock t u",
];

#[test]
fn words_of_commands(rt: HostRuntime) -> Result<(), Fail> {
    for words in &COMMANDS {
        assert!(rt; is_command(&rt, rt.alloc(), words)?, "the words {words:?}");
    }
    Ok(())
}

#[test]
fn words_of_no_command(rt: HostRuntime) -> Result<(), Fail> {
    for words in &NO_COMMANDS {
        assert!(rt; !is_command(&rt, rt.alloc(), words)?, "the words {words:?}");
    }
    Ok(())
}

#[test]
fn other_words_get_the_usage_line(rt: HostRuntime) -> Result<(), Fail> {
    let is_due = is_answered(
        &rt,
        rt.alloc(),
        &["list"],
        &[("a.cls", b"")],
        &[0],
        &[],
        (2, USAGE),
    )?;
    assert!(rt; is_due, "words that are no command");
    Ok(())
}

/// A program's path and one word after it, by their bytes.
#[derive(Drop)]
struct Called<'a> {
    path: &'a [u8],
    word: &'a [u8],
}

impl Env for Called<'_> {
    fn arg(&self, i: usize, buffer: &mut [u8]) -> Result<usize, FillError> {
        let argument = match i {
            0 => self.path,
            1 => self.word,
            _ => return Err(FillError::NotPresent),
        };
        if argument.len() > buffer.len() {
            return Err(FillError::TooLong);
        }
        buffer[..argument.len()].copy_from_slice(argument);
        Ok(argument.len())
    }

    fn var(&self, _name: &str, _buffer: &mut [u8]) -> Result<usize, FillError> {
        Err(FillError::NotPresent)
    }

    fn var_at(&self, _i: usize, _buffer: &mut [u8]) -> Result<usize, FillError> {
        Err(FillError::NotPresent)
    }
}

/// Whether the words after this path are the expected one, or none.
fn is_read<'x>(
    alloc: Global,
    path: &'x [u8],
    word: &'x [u8],
    due: Option<&str>,
) -> Result<bool, NoMemory> {
    let words = read_words(alloc, &Called { path, word })?;
    Ok(match (words.as_slice(), due) {
        ([read], Some(due)) => read.as_str() == due,
        (read, due) => read.is_empty() && due.is_none(),
    })
}

#[test]
fn a_program_may_be_called_by_any_path(rt: HostRuntime) -> Result<(), Fail> {
    let by_bytes = is_read(rt.alloc(), b"tools/\xff/clverify", b"list", Some("list"))?;
    assert!(rt; by_bytes, "the word behind a path that is no text");
    let no_text = is_read(rt.alloc(), b"clverify", b"\xff", None)?;
    assert!(rt; no_text, "a word that is no text");
    Ok(())
}
