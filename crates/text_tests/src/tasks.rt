use input_faults::Stopped;
use job_inputs::{made_inputs, read_moves, read_task};
use job_run::make_ready;
use report_text::refusal_text;
use std::alloc::Global;
use std::test::Fail;
use std::thread::Threads;
use vf_io::{MemShelf, NoMemory};

/// Files as they are handed over.
fn owned_files(alloc: Global, named: &[(&str, &[u8])]) -> Result<Vec<(String, Vec<u8>)>, NoMemory> {
    let mut owned = Vec::new(alloc);
    for (name, bytes) in named {
        owned.push((
            String::from_str(alloc, name)?,
            Vec::from_slice(alloc, bytes)?,
        ))?;
    }
    Ok(owned)
}

/// The line of what stops a command: none where the file isn't read, or no memory is found.
fn told(alloc: Global, stopped: Stopped) -> Result<Vec<u8>, NoMemory> {
    match stopped {
        Stopped::Refused(fault) => refusal_text(alloc, &fault),
        _ => Ok(Vec::new(alloc)),
    }
}

/// A shelf of these files.
fn shelf_of(alloc: Global, named: &[(&str, &[u8])]) -> Result<MemShelf, NoMemory> {
    Ok(MemShelf::new(owned_files(alloc, named)?, Vec::new(alloc)))
}

/// Programs that are cut off, and how many moves and records that are passed over are left of each.
const CUT_OFF: [(&[u8], usize, u32); 6] = [
    (b"", 0, 0),
    (b"G", 0, 1),
    (b"GOTO/1E-99,0,0", 0, 0),
    (b"PPRINT\xff", 0, 1),
    (b"FINI\n\xff", 0, 0),
    (b"CUTTER/2,0\r\nFROM/0,1,1\r\nGOTO/2,1,1\r\nFINI\r\n", 1, 0),
];

/// Whether the program is read, has `moves` moves and passes `passed` records over.
fn is_read(alloc: Global, text: &[u8], moves: usize, passed: u32) -> Result<bool, NoMemory> {
    let mut shelf = shelf_of(alloc, &[("A", text)])?;
    match read_moves(alloc, "A", &mut shelf) {
        Ok(program) => Ok(program.moves.len() == moves && program.passed == passed),
        Err(_) => Ok(false),
    }
}

#[test]
fn programs_that_are_cut_off(rt: HostRuntime) -> Result<(), Fail> {
    for (text, moves, passed) in &CUT_OFF {
        assert!(rt; is_read(rt.alloc(), text, *moves, *passed)?, "{text:?}");
    }
    Ok(())
}

/// Programs that are damaged, and the line that each is refused with.
const DAMAGED: [(&[u8], &str); 7] = [
    (b"GOTO/", "refused: cl line 1: ParamCount\n"),
    (b"GOTO/1,2,", "refused: cl line 1: NumberSyntax\n"),
    (b"GOTO 1,2,3", "refused: cl line 1: ParamWord\n"),
    (b"GOTO/1E99,0,0", "refused: cl line 1: NumberRange\n"),
    (
        b"GOTO/123456789012345678901,0,0",
        "refused: cl line 1: NumberSyntax\n",
    ),
    (b"GOTO/1,2,3\0", "refused: cl line 1: BadByte\n"),
    (b"GOTO/1,2,$\n", "refused: cl line 1: DanglingDollar\n"),
];

/// Whether the program is refused with this line.
fn is_damaged(alloc: Global, text: &[u8], line: &str) -> Result<bool, NoMemory> {
    let mut shelf = shelf_of(alloc, &[("A", text)])?;
    match read_moves(alloc, "A", &mut shelf) {
        Ok(_program) => Ok(false),
        Err(stopped) => Ok(told(alloc, stopped)?.as_slice() == line.as_bytes()),
    }
}

#[test]
fn programs_that_are_damaged(rt: HostRuntime) -> Result<(), Fail> {
    for (text, line) in &DAMAGED {
        assert!(rt; is_damaged(rt.alloc(), text, line)?, "{text:?}");
    }
    Ok(())
}

/// A flat cutter of 2 mm that goes 2 mm along x, a millimetre above the bottom.
const FLAT: &[u8] = b"CUTTER/2,0\nFROM/0,1,1\nGOTO/2,1,1\nFINI\n";

/// Two cuts that don't move.
const TWO_CUTS: &[u8] = b"CUTTER/2,0\nFROM/0,0,1\nGOTO/0,0,1\nFROM/2,2,1\nGOTO/2,2,1\nFINI\n";

/// A ball cutter that is less high than its corner radius.
const LOW: &[u8] = b"CUTTER/4,2,0,2,0,0,1\nFROM/0,1,1\nGOTO/2,1,1\nFINI\n";

/// A stock of 2.5 by 2.5 by 1.5 mm.
const STOCK: &[u8] = b"[grid]\n\
origin = [0, 0, 0]\n\
pitch = 1000\n\
step = 500\n\
counts = [3, 3, 2]\n\
[check]\n\
tolerance = 0\n\
clearance = 0\n\
slabs = 8\n\
depth = 2\n\
[tool]\n\
diameter = 2000\n\
radius = 0\n\
height = 5000\n\
[[stock]]\n\
box = [0, 0, 0, 2500, 2500, 1500]\n";

/// Whether the files are refused with this line.
fn are_refused(
    alloc: Global,
    files: &[(&str, &[u8])],
    script: Option<&str>,
    line: &str,
) -> Result<bool, NoMemory> {
    let mut shelf = shelf_of(alloc, files)?;
    match read_task(alloc, "A", "S", None, script, &mut shelf) {
        Ok(_inputs) => Ok(false),
        Err(stopped) => Ok(told(alloc, stopped)?.as_slice() == line.as_bytes()),
    }
}

/// A task, with a script of two edits and a query.
const TASK: [(&str, &[u8]); 3] = [
    ("A", FLAT),
    ("S", STOCK),
    ("F", b"run 1 1\ncount\nundo 1\n"),
];

/// Whether the task with this script is made ready, with one move and this number of edits and queries, and its plan is computed by
/// `workers` workers.
fn is_ready<R: Threads + Sync>(
    rt: &R,
    alloc: Global,
    script: Option<&str>,
    workers: u32,
    edits: u32,
    queries: usize,
) -> Result<bool, NoMemory> {
    let mut shelf = shelf_of(alloc, &TASK)?;
    let Ok(inputs) = read_task(alloc, "A", "S", None, script, &mut shelf) else {
        return Ok(false);
    };
    let ready = make_ready(alloc, inputs)?;
    let _reckoned = ready.plan.prepare_by(rt, alloc, workers)?;
    Ok(ready.plan.moves() == 1 && ready.plan.edits() == edits && ready.queries.len() == queries)
}

/// The moves of a generated task that is made ready and whose plan is computed by `workers` workers.
fn made_moves<R: Threads + Sync>(rt: &R, alloc: Global, workers: u32) -> Result<u32, NoMemory> {
    let made = make_ready(alloc, made_inputs(alloc, 1)?)?;
    let _reckoned = made.plan.prepare_by(rt, alloc, workers)?;
    Ok(made.plan.moves())
}

#[test]
fn tasks_are_made_ready(rt: HostRuntime) -> Result<(), Fail> {
    let alloc = rt.alloc();
    for workers in 1..3 {
        assert!(rt;
            is_ready(&rt, alloc, None, workers, 1, 0)?,
            "a task without a script"
        );
        assert!(rt;
            is_ready(&rt, alloc, Some("F"), workers, 2, 1)?,
            "a task with a script"
        );
        assert_eq!(rt; made_moves(&rt, alloc, workers)?, 24);
    }
    Ok(())
}

/// Whether the program with this setup is refused with this line.
fn is_refused(alloc: Global, setup: &[u8], line: &str) -> Result<bool, NoMemory> {
    are_refused(alloc, &[("A", FLAT), ("S", setup)], None, line)
}

/// Whether the program is refused with this line where another text is in place of one in the setup.
fn is_refused_with(alloc: Global, text: &str, other: &str, line: &str) -> Result<bool, NoMemory> {
    let Ok(stock) = std::str::from_utf8(STOCK) else {
        return Ok(false);
    };
    let setup = stock.replace(alloc, text, other)?;
    is_refused(alloc, setup.as_bytes(), line)
}

/// Whether the program with `count` blanks for a setup is refused with this line.
fn are_blanks_refused(alloc: Global, count: usize, line: &str) -> Result<bool, NoMemory> {
    let setup = " ".repeat(alloc, count)?;
    is_refused(alloc, setup.as_bytes(), line)
}

/// What is put in place of a text in the setup, and the line that the files are refused with.
const SETUPS: [(&str, &str, &str); 2] = [
    (
        "[3, 3, 2]",
        "[3, 3, 401]",
        "refused: setup grid.counts: SetupRange 401\n",
    ),
    (
        "1500]\n",
        "1500]\nspeed = 1\n",
        "refused: setup stock: SetupKey\n",
    ),
];

#[test]
fn setups_that_are_damaged(rt: HostRuntime) -> Result<(), Fail> {
    let alloc = rt.alloc();
    assert!(rt;
        is_refused(alloc, b"\xff", "refused: setup: SetupSyntax\n")?,
        "no text"
    );
    for (text, other, line) in &SETUPS {
        assert!(rt; is_refused_with(alloc, text, other, line)?, "{other}");
    }
    assert!(rt;
        are_blanks_refused(alloc, 1_048_577, "refused: setup: TooLong\n")?,
        "too long"
    );
    Ok(())
}

/// A script over a program, and the line that the files are refused with: a cutter that is too low comes before the script.
const SCRIPTS: [(&[u8], &[u8], &str); 6] = [
    (
        FLAT,
        b"run 1 1000000000",
        "refused: script line 1: ScriptSyntax\n",
    ),
    (FLAT, b"undo 0", "refused: script line 1: ScriptRange\n"),
    (
        FLAT,
        b"probe Z 3 0 0",
        "refused: script line 1: ScriptRange\n",
    ),
    (
        TWO_CUTS,
        b"run 1 2\nundo 3\n",
        "refused: script line 2: UndoDepth 3 2\n",
    ),
    (
        TWO_CUTS,
        b"run 1 3\n",
        "refused: script line 1: ScriptRange\n",
    ),
    (LOW, b"go\n", "refused: cl line 3: CutterHeight\n"),
];

/// Whether the program with this script is refused with this line.
fn is_script_refused<'x>(
    alloc: Global,
    program: &'x [u8],
    script: &'x [u8],
    line: &str,
) -> Result<bool, NoMemory> {
    let files = [("A", program), ("S", STOCK), ("F", script)];
    are_refused(alloc, &files, Some("F"), line)
}

#[test]
fn scripts_that_are_damaged(rt: HostRuntime) -> Result<(), Fail> {
    let alloc = rt.alloc();
    for (program, script, line) in &SCRIPTS {
        assert!(rt; is_script_refused(alloc, program, script, line)?, "{line}");
    }
    Ok(())
}

/// Where the program is refused no setup is looked for.
#[test]
fn a_program_is_refused_without_a_setup(rt: HostRuntime) -> Result<(), Fail> {
    let line = "refused: cl line 1: ParamCount\n";
    assert!(rt; are_refused(rt.alloc(), &[("A", b"GOTO/")], None, line)?);
    Ok(())
}
