use crate::answered::{CLEAN, FLAT, STOCK, USAGE, is_answered, part_setup, stock_with};
use std::alloc::Global;
use std::sync::Wait;
use std::test::Fail;
use std::thread::Threads;
use vf_io::NoMemory;

/// The expected report on the setup, up to its second line.
const TWO_LINES: &str = "clverify 1\nmoves 1 left 1 passed 0\n";

/// The expected report where the move cuts into the part.
const FINDINGS: &str = "clverify 1\n\
moves 1 left 1 passed 0\n\
move 1 line 3 cut removed 49 possible 49 part 40 40 fixture 0 0 rapid 0 0 unsafe\n\
total removed 49 possible 49 of 108\n\
verdict findings\n";

/// The expected report where the one move is undone after a count.
const UNDONE: &str = "clverify 1\n\
moves 1 left 0 passed 0\n\
count removed 49 possible 49 of 108\n\
total removed 0 possible 0 of 108\n\
verdict clean\n";

/// The expected texts of two generated jobs, a clean one and one whose moves cut into the part.
const SELFTEST_1: &str = "clverify selftest 1\n\
total removed 2748 possible 2970 of 8712\n\
verdict clean\n";

const SELFTEST_5260: &str = "clverify selftest 5260\n\
total removed 3461 possible 3636 of 8712\n\
verdict findings\n";

/// The words of a call, the puts that fail, the code and the text.
const REPORTS: [(&[&str], &[u64], u8, &str); 5] = [
    (&["verify", "A", "S"], &[], 0, CLEAN),
    (&["verify", "A", "P"], &[], 1, FINDINGS),
    (&["verify", "A", "S", "--script", "F"], &[], 0, UNDONE),
    (
        &["verify", "--workers=16", "A", "--script=F", "S"],
        &[],
        0,
        UNDONE,
    ),
    (&["verify", "A", "S"], &[2], 5, TWO_LINES),
];

/// Whether the task of these words is answered so, where the puts with these numbers fail.
fn is_reported<R: Threads + Wait + Sync>(
    rt: &R,
    alloc: Global,
    words: &[&str],
    writes: &[u64],
    due: (u8, &str),
) -> Result<bool, NoMemory> {
    let part = part_setup(alloc)?;
    let files: [(&str, &[u8]); 4] = [
        ("A", FLAT),
        ("S", STOCK),
        ("P", part.as_bytes()),
        ("F", b"run 1 1\ncount\nundo 1\n"),
    ];
    is_answered(rt, alloc, words, &files, &[], writes, due)
}

#[test]
fn tasks_are_reported(rt: HostRuntime) -> Result<(), Fail> {
    for (words, writes, code, text) in &REPORTS {
        assert!(rt;
            is_reported(&rt, rt.alloc(), words, writes, (*code, text))?,
            "{words:?}"
        );
    }
    Ok(())
}

/// The words of a generated task, the code and the text.
const MADE: [(&[&str], u8, &str); 2] = [
    (&["selftest", "1"], 0, SELFTEST_1),
    (&["selftest", "5260"], 1, SELFTEST_5260),
];

#[test]
fn made_tasks_are_summed_up(rt: HostRuntime) -> Result<(), Fail> {
    for (words, code, text) in &MADE {
        let is_due = is_answered(&rt, rt.alloc(), words, &[], &[], &[], (*code, text))?;
        assert!(rt; is_due, "{words:?}");
    }
    Ok(())
}

/// The words of a call that ends without a report, the code and the text.
const REFUSALS: [(&[&str], u8, &str); 4] = [
    (&["verify", "A"], 2, USAGE),
    (&["verify", "A", "M"], 4, ""),
    (
        &["verify", "A", "N"],
        3,
        "refused: setup grid.pitch: SetupKey\n",
    ),
    (
        &["verify", "A", "S", "--script", "G"],
        3,
        "refused: script line 1: ScriptSyntax\n",
    ),
];

/// Whether the task of these words is refused so.
fn is_refused<R: Threads + Wait + Sync>(
    rt: &R,
    alloc: Global,
    words: &[&str],
    due: (u8, &str),
) -> Result<bool, NoMemory> {
    let no_pitch = stock_with(alloc, "pitch = 1000\n", "")?;
    let files: [(&str, &[u8]); 4] = [
        ("A", FLAT),
        ("S", STOCK),
        ("N", no_pitch.as_bytes()),
        ("G", b"go\n"),
    ];
    is_answered(rt, alloc, words, &files, &[], &[], due)
}

#[test]
fn faults_are_told_in_place_of_a_report(rt: HostRuntime) -> Result<(), Fail> {
    for (words, code, text) in &REFUSALS {
        assert!(rt;
            is_refused(&rt, rt.alloc(), words, (*code, text))?,
            "{words:?}"
        );
    }
    Ok(())
}
