use crate::answered::{FLAT, STOCK, owned_files, owned_words, part_setup};
use clverify::verdict::verdict_of;
use std::alloc::Global;
use std::sync::Wait;
use std::test::Fail;
use std::thread::Threads;
use vf_io::NoMemory;

/// The words of a call, and the code of its verdict.
const ROWS: [(&[&str], u8); 6] = [
    (&["verify", "A", "S"], 0),
    (&["verify", "A", "P", "--workers=2"], 1),
    (&["verify", "A"], 2),
    (&["list", "A"], 0),
    (&["list", "absent"], 0),
    (&["verify", "A", "absent"], 3),
];

/// Whether the verdict on these words has this code.
fn is_verdict<R: Threads + Wait + Sync>(
    rt: &R,
    alloc: Global,
    words: &[&str],
    code: u8,
) -> Result<bool, NoMemory> {
    let part = part_setup(alloc)?;
    let named = [("A", FLAT), ("S", STOCK), ("P", part.as_bytes())];
    let files = owned_files(alloc, &named)?;
    let words = owned_words(alloc, words)?;
    Ok(verdict_of(rt, alloc, &words, files).code() == code)
}

#[test]
fn verdicts_without_a_fault(rt: HostRuntime) -> Result<(), Fail> {
    for (words, code) in &ROWS {
        assert!(rt;
            is_verdict(&rt, rt.alloc(), words, *code)?,
            "the code of {words:?}"
        );
    }
    Ok(())
}
