use crate::answered::{CLEAN, Door, FLAT, STOCK, is_answered, is_answered_by, owned_files};
use std::alloc::Global;
use std::sync::Wait;
use std::test::Fail;
use std::thread::Threads;
use vf_io::{CutShelf, NoMemory};

/// A job in which nothing is found, and its words.
const FILES: [(&str, &[u8]); 3] = [("A", FLAT), ("S", STOCK), ("F", b"run 1 1\nundo 3\n")];

const WORDS: &[&str] = &["verify", "A", "S"];

/// Whether the job is reported where a read gives no more than `piece` bytes.
fn is_read_by<R: Threads + Wait + Sync>(
    rt: &R,
    alloc: Global,
    piece: u32,
) -> Result<bool, NoMemory> {
    let files = owned_files(alloc, &FILES)?;
    let shelf = CutShelf::new(files, Vec::new(alloc), piece.max(1));
    is_answered_by(rt, alloc, WORDS, shelf, &[], &Door::open(), (0, CLEAN))
}

#[test]
fn reads_may_give_few_bytes(rt: HostRuntime) -> Result<(), Fail> {
    for piece in [1u32, 2, 7] {
        assert!(rt; is_read_by(&rt, rt.alloc(), piece)?, "by pieces of {piece}");
    }
    Ok(())
}

/// Each of the two files is opened, read, and read at its end.
const READS: u64 = 6;

#[test]
fn each_read_fails_in_turn(rt: HostRuntime) -> Result<(), Fail> {
    for call in 0..READS {
        let is_fault = is_answered(&rt, rt.alloc(), WORDS, &FILES, &[call], &[], (4, ""))?;
        assert!(rt; is_fault, "call {call} of the shelf fails");
    }
    let is_clean = is_answered(&rt, rt.alloc(), WORDS, &FILES, &[READS], &[], (0, CLEAN))?;
    assert!(rt; is_clean, "no call of the shelf fails");
    Ok(())
}

/// The first put whose failure leaves other lines than those before it, where there is one: five lines are put.
fn first_other_put<R: Threads + Wait + Sync>(
    rt: &R,
    alloc: Global,
) -> Result<Option<u64>, NoMemory> {
    let mut due = String::new(alloc);
    let mut put: u64 = 0;
    for line in CLEAN.split('\n') {
        let code = if line.is_empty() { 0 } else { 5 };
        if !is_answered(rt, alloc, WORDS, &FILES, &[], &[put], (code, due.as_str()))? {
            return Ok(Some(put));
        }
        due.push_str(line)?;
        due.push_str("\n")?;
        put = put.saturating_add(1);
    }
    Ok(if put == 6 { None } else { Some(put) })
}

#[test]
fn each_put_fails_in_turn(rt: HostRuntime) -> Result<(), Fail> {
    assert_eq!(rt; first_other_put(&rt, rt.alloc())?, None);
    let words = ["verify", "A", "S", "--script", "F"];
    let is_fault = is_answered(&rt, rt.alloc(), &words, &FILES, &[], &[0], (5, ""))?;
    assert!(rt; is_fault, "the line of a refusal");
    Ok(())
}

const FILE: [(&str, &[u8]); 1] = [("a.cls", b"FROM/0,0,0\nGOTO/0,0,1\n")];

const FRONT: &str =
    "clverify list 1\nmove 1 line 2 cut from 0 0 0 to 0 0 1000 axis 0 0 100000 to 0 0 100000 cutter none\n";

/// The words of a call, the reads and the puts that fail, the code and the text.
const FAULTS: [(&[&str], &[u64], &[u64], u8, &str); 6] = [
    (&["list", "b.cls"], &[], &[], 4, ""),
    (&["list", "a.cls"], &[0], &[], 4, ""),
    (&["list", "a.cls"], &[1], &[], 4, ""),
    (&["list", "a.cls"], &[2], &[], 4, ""),
    (&["list", "a.cls"], &[], &[2], 5, FRONT),
    (&["list"], &[], &[0], 5, ""),
];

#[test]
fn faults_outside_are_told_apart(rt: HostRuntime) -> Result<(), Fail> {
    for (words, reads, writes, code, text) in &FAULTS {
        let is_due = is_answered(&rt, rt.alloc(), words, &FILE, reads, writes, (*code, text))?;
        assert!(rt; is_due, "the reads {reads:?} and writes {writes:?}");
    }
    Ok(())
}

/// The same job with a certificate. Nothing of it has to be covered, since it has neither part nor fixtures.
const CERTIFIED: [(&str, &[u8]); 3] = [("A", FLAT), ("S", STOCK), ("C", b"cert 1\nslabs 8\nend\n")];

const CERTIFY: &[&str] = &["certify", "A", "S", "1"];

const CHECK: &[&str] = &["check", "A", "S", "1", "C"];

/// As above. Each file is opened, read, and read at its end; the certificate isn't opened where the move isn't there.
const CERT_FAULTS: [(&[&str], &[u64], &[u64], u8, &str); 15] = [
    (CERTIFY, &[0], &[], 4, ""),
    (CERTIFY, &[3], &[], 4, ""),
    (CERTIFY, &[5], &[], 4, ""),
    (CERTIFY, &[6], &[], 0, "cert 1\nslabs 8\nend\n"),
    (CERTIFY, &[], &[0], 5, ""),
    (CERTIFY, &[], &[2], 5, "cert 1\nslabs 8\n"),
    (CHECK, &[2], &[], 4, ""),
    (CHECK, &[5], &[], 4, ""),
    (CHECK, &[6], &[], 4, ""),
    (CHECK, &[7], &[], 4, ""),
    (CHECK, &[8], &[], 4, ""),
    (CHECK, &[9], &[], 0, "cert accepted\n"),
    (CHECK, &[], &[0], 5, ""),
    (
        &["check", "A", "S", "2", "C"],
        &[6],
        &[],
        3,
        "refused: cl: MoveRange 2 1\n",
    ),
    (&["check", "A", "S", "1", "D"], &[], &[], 4, ""),
];

#[test]
fn certificates_and_faults_outside(rt: HostRuntime) -> Result<(), Fail> {
    for (words, reads, writes, code, text) in &CERT_FAULTS {
        let is_due = is_answered(
            &rt,
            rt.alloc(),
            words,
            &CERTIFIED,
            reads,
            writes,
            (*code, text),
        )?;
        assert!(rt;
            is_due,
            "{code} {text}: the reads {reads:?} and writes {writes:?}"
        );
    }
    Ok(())
}
