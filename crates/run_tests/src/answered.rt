use clverify::top::run;
use std::alloc::Global;
use std::sync::Wait;
use std::sync::atomic::AtomicBool;
use std::sync::atomic::Ordering::SeqCst;
use std::thread::Threads;
use vf_io::{CutShelf, MemSink, NoMemory};
use worker_gate::Gate;

/// The usage line.
pub(crate) const USAGE: &str =
    "usage: clverify list CL | point CL X Y Z --depth M [--slabs N] | verify CL SETUP [--script F] [--workers N] \
    [--stock F] | selftest N | certify CL SETUP I | check CL SETUP I CERT | save CL SETUP [--script F] [--stock F]\n";

/// Whether a call over files with these names ends with this code and writes this text. The calls of the shelf and the puts with these
/// numbers fail.
pub(crate) fn is_answered<R: Threads + Wait + Sync>(
    rt: &R,
    alloc: Global,
    words: &[&str],
    named: &[(&str, &[u8])],
    failing_reads: &[u64],
    failing_writes: &[u64],
    due: (u8, &str),
) -> Result<bool, NoMemory> {
    let files = owned_files(alloc, named)?;
    let failing = Vec::from_slice(alloc, failing_reads)?;
    let shelf = CutShelf::new(files, failing, u32::MAX);
    is_answered_by(rt, alloc, words, shelf, failing_writes, &Door::open(), due)
}

/// The same over a shelf, with workers that go through a gate. The shelf and the gate have one type in all tests, since the program is
/// built anew for each.
pub(crate) fn is_answered_by<R: Threads + Wait + Sync>(
    rt: &R,
    alloc: Global,
    words: &[&str],
    mut shelf: CutShelf,
    failing_writes: &[u64],
    gate: &Door,
    due: (u8, &str),
) -> Result<bool, NoMemory> {
    let (code, text) = due;
    let words = owned_words(alloc, words)?;
    let failing = Vec::from_slice(alloc, failing_writes)?;
    let mut sink = MemSink::new(alloc, 20_000_000, failing)?;
    let status = run(rt, alloc, &words, &mut shelf, &mut sink, gate);
    Ok(status.code() == code && sink.written() == text.as_bytes())
}

/// How often the first ticket looks for the ninth.
const LOOKS: u32 = 100_000_000;

/// A gate that lets everyone through at once, or else holds the first ticket until the ninth was entered.
#[derive(Drop)]
pub(crate) struct Door {
    holds: bool,
    came: AtomicBool,
    pub(crate) seen: AtomicBool,
}

impl Gate for Door {
    fn enter(&self, _strip: u32, ticket: u64) {
        if ticket == 8 {
            self.came.store(true, SeqCst);
        }
        if ticket == 0 && self.holds {
            self.wait();
        }
    }
}

impl Door {
    pub(crate) fn open() -> Door {
        Door::new(false)
    }

    pub(crate) fn new(holds: bool) -> Door {
        Door {
            holds,
            came: AtomicBool::new(false),
            seen: AtomicBool::new(false),
        }
    }

    fn wait(&self) {
        for _ in 0..LOOKS {
            if self.came.load(SeqCst) {
                self.seen.store(true, SeqCst);
                return;
            }
        }
    }
}

/// Words as they are handed over.
pub(crate) fn owned_words(alloc: Global, words: &[&str]) -> Result<Vec<String>, NoMemory> {
    let mut owned = Vec::new(alloc);
    for word in words {
        owned.push(String::from_str(alloc, word)?)?;
    }
    Ok(owned)
}

/// Files as they are handed over.
pub(crate) fn owned_files(
    alloc: Global,
    named: &[(&str, &[u8])],
) -> Result<Vec<(String, Vec<u8>)>, NoMemory> {
    let mut owned = Vec::new(alloc);
    for (name, bytes) in named {
        owned.push((
            String::from_str(alloc, name)?,
            Vec::from_slice(alloc, bytes)?,
        ))?;
    }
    Ok(owned)
}

/// A flat cutter of 2 mm that goes 2 mm along x, a millimetre above the bottom.
pub(crate) const FLAT: &[u8] = b"CUTTER/2,0\nFROM/0,1,1\nGOTO/2,1,1\nFINI\n";

/// A stock of 2.5 by 2.5 by 1.5 mm.
pub(crate) const STOCK: &[u8] = b"[grid]\n\
origin = [0, 0, 0]\n\
pitch = 1000\n\
step = 500\n\
counts = [3, 3, 2]\n\
[check]\n\
tolerance = 0\n\
clearance = 0\n\
slabs = 8\n\
depth = 2\n\
[tool]\n\
diameter = 2000\n\
radius = 0\n\
height = 5000\n\
[[stock]]\n\
box = [0, 0, 0, 2500, 2500, 1500]\n";

/// The setup with another text in place of one.
pub(crate) fn stock_with(alloc: Global, text: &str, other: &str) -> Result<String, NoMemory> {
    match std::str::from_utf8(STOCK) {
        Ok(stock) => Ok(stock.replace(alloc, text, other)?),
        Err(_) => Ok(String::new(alloc)),
    }
}

/// The same with a part up to where the cutter goes.
pub(crate) fn part_setup(alloc: Global) -> Result<String, NoMemory> {
    stock_with(
        alloc,
        "1500]\n",
        "1500]\n[[part]]\nbox = [0, 0, 0, 2500, 2500, 1000]\n",
    )
}

/// The expected report on the setup.
pub(crate) const CLEAN: &str = "clverify 1\n\
moves 1 left 1 passed 0\n\
move 1 line 3 cut removed 49 possible 49 part 0 0 fixture 0 0 rapid 0 0 safe\n\
total removed 49 possible 49 of 108\n\
verdict clean\n";
