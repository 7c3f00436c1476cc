use edit_plan::Ask;
use job_counts::{Answer, Counts, PointState, Totals};
use job_report::{Facts, Found};
use ray_grid::{Family, Ray};
use report_text::{report_text, selftest_text};
use std::alloc::Global;
use std::test::Fail;
use vf_io::NoMemory;

/// What was found of a move: its number, its line, whether it is rapid, and its counts in the order of its line.
type FoundRow = (u32, u32, bool, [u64; 8]);

/// A query and its answer: a probe's family, i, j and l with the state, or the totals of removed and possible points.
#[derive(Clone, Copy)]
enum Told {
    Probe(Family, u32, u32, u32, PointState),
    Count(u64, u64),
}

/// A job and its report: its moves, the lines passed over, what was found, the answers, and the totals at its end.
#[derive(Clone, Copy)]
struct Job {
    moves: u32,
    passed: u32,
    left: &'static [FoundRow],
    answers: &'static [Told],
    totals: (u64, u64),
    due: &'static str,
}

fn found(row: &FoundRow) -> Found {
    let (number, line, rapid, counts) = *row;
    let [
        removed,
        possible,
        part_sure,
        part_possible,
        fix_sure,
        fix_possible,
        rapid_sure,
        rapid_possible,
    ] = counts;
    let counts = Counts {
        removed,
        possible,
        part_sure,
        part_possible,
        fix_sure,
        fix_possible,
        rapid_sure,
        rapid_possible,
    };
    Found {
        number,
        line,
        rapid,
        counts,
    }
}

/// Totals of a grid of 108 points.
fn totals(counts: (u64, u64)) -> Totals {
    Totals {
        removed: counts.0,
        possible: counts.1,
        of: 108,
    }
}

fn answer(told: &Told) -> (Ask, Answer) {
    match *told {
        Told::Probe(family, i, j, l, state) => {
            let ray = Ray { family, i, j };
            (Ask::Probe { ray, l }, Answer::Probe(state))
        }
        Told::Count(removed, possible) => {
            (Ask::Count, Answer::Count(totals((removed, possible))))
        }
    }
}

/// The facts of a job.
fn facts(alloc: Global, job: &Job) -> Result<Facts, NoMemory> {
    let mut left = Vec::new(alloc);
    for row in job.left {
        left.push(found(row))?;
    }
    let mut answers = Vec::new(alloc);
    for told in job.answers {
        answers.push(answer(told))?;
    }
    Ok(Facts {
        moves: job.moves,
        passed: job.passed,
        left,
        answers,
        totals: totals(job.totals),
    })
}

const ONE_CUT: &str = "clverify 1
moves 1 left 1 passed 0
move 1 line 3 cut removed 49 possible 49 part 0 0 fixture 0 0 rapid 0 0 safe
total removed 49 possible 49 of 108
verdict clean
";

const NO_MOVE: &str = "clverify 1
moves 0 left 0 passed 6
total removed 0 possible 0 of 108
verdict clean
";

const ONE_UNDONE: &str = "clverify 1
moves 2 left 1 passed 0
move 1 line 3 cut removed 49 possible 49 part 0 0 fixture 0 0 rapid 0 0 safe
probe Z 1 1 2 removed
total removed 49 possible 49 of 108
verdict clean
";

const QUERIES: &str = "clverify 1
moves 2 left 1 passed 0
move 2 line 5 cut removed 16 possible 16 part 0 0 fixture 0 0 rapid 0 0 safe
probe Z 0 0 2 removed
probe Z 2 2 2 removed
count removed 30 possible 30 of 108
probe Z 0 0 2 kept
probe Z 2 2 2 removed
count removed 16 possible 16 of 108
total removed 16 possible 16 of 108
verdict clean
";

const PART_MET: &str = "clverify 1
moves 1 left 1 passed 0
move 1 line 3 cut removed 49 possible 49 part 40 40 fixture 0 0 rapid 0 0 unsafe
total removed 49 possible 49 of 108
verdict findings
";

const RAPID_MET: &str = "clverify 1
moves 2 left 2 passed 0
move 1 line 3 cut removed 35 possible 49 part 0 0 fixture 0 0 rapid 0 0 safe
move 2 line 5 rapid removed 0 possible 0 part 0 0 fixture 0 0 rapid 0 14 unsafe
total removed 35 possible 49 of 108
verdict findings
";

const FIXTURE_MET: &str = "clverify 1
moves 2 left 3 passed 1
move 2 line 12 rapid removed 1 possible 2 part 3 4 fixture 5 6 rapid 7 8 unsafe
move 2 line 12 cut removed 0 possible 0 part 0 0 fixture 0 1 rapid 0 0 unsafe
move 1 line 9 cut removed 18446744073709551615 possible 0 part 0 0 fixture 0 0 rapid 0 0 safe
probe X 0 1 5 none
probe Y 2 0 999 possible
total removed 0 possible 108 of 108
verdict findings
";

const JOBS: [Job; 7] = [
    Job {
        moves: 1,
        passed: 0,
        left: &[(1, 3, false, [49, 49, 0, 0, 0, 0, 0, 0])],
        answers: &[],
        totals: (49, 49),
        due: ONE_CUT,
    },
    Job {
        moves: 0,
        passed: 6,
        left: &[],
        answers: &[],
        totals: (0, 0),
        due: NO_MOVE,
    },
    Job {
        moves: 2,
        passed: 0,
        left: &[(1, 3, false, [49, 49, 0, 0, 0, 0, 0, 0])],
        answers: &[Told::Probe(Family::Z, 1, 1, 2, PointState::Removed)],
        totals: (49, 49),
        due: ONE_UNDONE,
    },
    Job {
        moves: 2,
        passed: 0,
        left: &[(2, 5, false, [16, 16, 0, 0, 0, 0, 0, 0])],
        answers: &[
            Told::Probe(Family::Z, 0, 0, 2, PointState::Removed),
            Told::Probe(Family::Z, 2, 2, 2, PointState::Removed),
            Told::Count(30, 30),
            Told::Probe(Family::Z, 0, 0, 2, PointState::Kept),
            Told::Probe(Family::Z, 2, 2, 2, PointState::Removed),
            Told::Count(16, 16),
        ],
        totals: (16, 16),
        due: QUERIES,
    },
    Job {
        moves: 1,
        passed: 0,
        left: &[(1, 3, false, [49, 49, 40, 40, 0, 0, 0, 0])],
        answers: &[],
        totals: (49, 49),
        due: PART_MET,
    },
    Job {
        moves: 2,
        passed: 0,
        left: &[
            (1, 3, false, [35, 49, 0, 0, 0, 0, 0, 0]),
            (2, 5, true, [0, 0, 0, 0, 0, 0, 0, 14]),
        ],
        answers: &[],
        totals: (35, 49),
        due: RAPID_MET,
    },
    Job {
        moves: 2,
        passed: 1,
        left: &[
            (2, 12, true, [1, 2, 3, 4, 5, 6, 7, 8]),
            (2, 12, false, [0, 0, 0, 0, 0, 1, 0, 0]),
            (1, 9, false, [u64::MAX, 0, 0, 0, 0, 0, 0, 0]),
        ],
        answers: &[
            Told::Probe(Family::X, 0, 1, 5, PointState::Absent),
            Told::Probe(Family::Y, 2, 0, 999, PointState::Possible),
        ],
        totals: (0, 108),
        due: FIXTURE_MET,
    },
];

/// Whether the report of the job is the expected one.
fn is_reported(alloc: Global, job: &Job) -> Result<bool, NoMemory> {
    let facts = facts(alloc, job)?;
    Ok(facts.is_answered() && report_text(alloc, &facts)?.as_slice() == job.due.as_bytes())
}

#[test]
fn reports_jobs(rt: HostRuntime) -> Result<(), Fail> {
    for job in &JOBS {
        assert!(rt; is_reported(rt.alloc(), job)?, "{}", job.due);
    }
    Ok(())
}

/// The number of a generated job, its points that are removed and those that may be, and its text.
const MADE: [(u32, u64, u64, bool, &str); 2] = [
    (
        1,
        2748,
        2970,
        true,
        "clverify selftest 1\ntotal removed 2748 possible 2970 of 8712\nverdict clean\n",
    ),
    (
        5260,
        3461,
        3636,
        false,
        "clverify selftest 5260\ntotal removed 3461 possible 3636 of 8712\nverdict findings\n",
    ),
];

/// The text of a generated job, whether it is clean or not.
fn made_text(
    alloc: Global,
    number: u32,
    removed: u64,
    possible: u64,
    clean: bool,
) -> Result<Vec<u8>, NoMemory> {
    let totals = Totals {
        removed,
        possible,
        of: 8712,
    };
    selftest_text(alloc, number, &totals, clean)
}

#[test]
fn tells_of_made_jobs(rt: HostRuntime) -> Result<(), Fail> {
    for (number, removed, possible, clean, due) in &MADE {
        let text = made_text(rt.alloc(), *number, *removed, *possible, *clean)?;
        assert!(rt; text.as_slice() == due.as_bytes(), "{due}");
    }
    Ok(())
}
