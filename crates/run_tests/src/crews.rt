use crate::answered::{Door, is_answered_by, owned_files, stock_with};
use std::alloc::Global;
use std::sync::Wait;
use std::sync::atomic::Ordering::SeqCst;
use std::test::Fail;
use std::thread::Threads;
use vf_io::{CutShelf, NoMemory};

/// A cutter that stays in place for twenty moves.
const STANDING: &[u8] = b"CUTTER/2,0\n\
FROM/0,0,0\n\
GOTO/0,0,0\n\
GOTO/0,0,0\n\
GOTO/0,0,0\n\
GOTO/0,0,0\n\
GOTO/0,0,0\n\
GOTO/0,0,0\n\
GOTO/0,0,0\n\
GOTO/0,0,0\n\
GOTO/0,0,0\n\
GOTO/0,0,0\n\
GOTO/0,0,0\n\
GOTO/0,0,0\n\
GOTO/0,0,0\n\
GOTO/0,0,0\n\
GOTO/0,0,0\n\
GOTO/0,0,0\n\
GOTO/0,0,0\n\
GOTO/0,0,0\n\
GOTO/0,0,0\n\
GOTO/0,0,0\n\
FINI\n";

/// Its report over a stock of six points, all of which the first move removes.
const REPORT: &str = "clverify 1\n\
moves 20 left 20 passed 0\n\
move 1 line 3 cut removed 6 possible 6 part 0 0 fixture 0 0 rapid 0 0 safe\n\
move 2 line 4 cut removed 0 possible 0 part 0 0 fixture 0 0 rapid 0 0 safe\n\
move 3 line 5 cut removed 0 possible 0 part 0 0 fixture 0 0 rapid 0 0 safe\n\
move 4 line 6 cut removed 0 possible 0 part 0 0 fixture 0 0 rapid 0 0 safe\n\
move 5 line 7 cut removed 0 possible 0 part 0 0 fixture 0 0 rapid 0 0 safe\n\
move 6 line 8 cut removed 0 possible 0 part 0 0 fixture 0 0 rapid 0 0 safe\n\
move 7 line 9 cut removed 0 possible 0 part 0 0 fixture 0 0 rapid 0 0 safe\n\
move 8 line 10 cut removed 0 possible 0 part 0 0 fixture 0 0 rapid 0 0 safe\n\
move 9 line 11 cut removed 0 possible 0 part 0 0 fixture 0 0 rapid 0 0 safe\n\
move 10 line 12 cut removed 0 possible 0 part 0 0 fixture 0 0 rapid 0 0 safe\n\
move 11 line 13 cut removed 0 possible 0 part 0 0 fixture 0 0 rapid 0 0 safe\n\
move 12 line 14 cut removed 0 possible 0 part 0 0 fixture 0 0 rapid 0 0 safe\n\
move 13 line 15 cut removed 0 possible 0 part 0 0 fixture 0 0 rapid 0 0 safe\n\
move 14 line 16 cut removed 0 possible 0 part 0 0 fixture 0 0 rapid 0 0 safe\n\
move 15 line 17 cut removed 0 possible 0 part 0 0 fixture 0 0 rapid 0 0 safe\n\
move 16 line 18 cut removed 0 possible 0 part 0 0 fixture 0 0 rapid 0 0 safe\n\
move 17 line 19 cut removed 0 possible 0 part 0 0 fixture 0 0 rapid 0 0 safe\n\
move 18 line 20 cut removed 0 possible 0 part 0 0 fixture 0 0 rapid 0 0 safe\n\
move 19 line 21 cut removed 0 possible 0 part 0 0 fixture 0 0 rapid 0 0 safe\n\
move 20 line 22 cut removed 0 possible 0 part 0 0 fixture 0 0 rapid 0 0 safe\n\
total removed 6 possible 6 of 6\n\
verdict clean\n";

/// Whether `workers` workers, who go through a gate, give the expected report of this cutter.
fn is_reported<R: Threads + Wait + Sync>(
    rt: &R,
    alloc: Global,
    workers: &str,
    gate: &Door,
) -> Result<bool, NoMemory> {
    let setup = stock_with(alloc, "[3, 3, 2]", "[1, 1, 1]")?;
    let files = owned_files(alloc, &[("H", STANDING), ("S", setup.as_bytes())])?;
    let shelf = CutShelf::new(files, Vec::new(alloc), u32::MAX);
    let words = ["verify", "H", "S", "--workers", workers];
    is_answered_by(rt, alloc, &words, shelf, &[], gate, (0, REPORT))
}

#[test]
fn one_worker_and_sixteen(rt: HostRuntime) -> Result<(), Fail> {
    assert!(rt; is_reported(&rt, rt.alloc(), "1", &Door::open())?, "by one");
    assert!(rt;
        is_reported(&rt, rt.alloc(), "16", &Door::open())?,
        "by sixteen"
    );
    Ok(())
}

/// The first ticket waits for the ninth, which comes only where the program lets several workers turn the strips.
#[test]
fn run_gate(rt: HostRuntime) -> Result<(), Fail> {
    let gate = Door::new(true);
    assert!(rt; is_reported(&rt, rt.alloc(), "16", &gate)?, "by sixteen");
    assert!(rt;
        gate.seen.load(SeqCst),
        "the ninth ticket came while the first was held"
    );
    Ok(())
}
