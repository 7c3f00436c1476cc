use crate::answered::{USAGE, is_answered};
use std::test::Fail;

/// The longest move that there is, with the largest cutter.
const LARGEST: &[u8] =
    b"CUTTER/200,0,100,0,0,0,300\nFROM/-1000,-1000,-1000,1,1,1\nGOTO/1000,1000,1000\n";

/// A move without a cutter, then a thin cutter, a thick one, and the thin one again.
const CUTTERS: &[u8] = b"FROM/0,0,0\n\
GOTO/0,0,0\n\
CUTTER/2,0\n\
GOTO/0,0,0\n\
CUTTER/6,0\n\
GOTO/0,0,0\n\
GOTO/0,0,0\n\
CUTTER/2,0\n\
GOTO/0,0,0\n";

const CUTTERS_MARKED: &str = "clverify point 1\n\
move 1 line 2 nocutter\n\
move 2 line 4 clear\n\
move 3 line 6 removed\n\
move 4 line 7 removed\n\
move 5 line 9 clear\n\
moves 5\n";

/// A ball cutter that is less high than its corner radius, on two moves.
const LOW: &[u8] = b"CUTTER/4,2,0,2,0,0,1\nFROM/0,0,0\nGOTO/1,0,0\nGOTO/2,0,0\n";

/// A file, the words of a call, the code and the text.
const POINTS: [(&[u8], &[&str], u8, &str); 5] = [
    (
        CUTTERS,
        &["point", "a.cls", "2", "0", "1", "--depth", "0"],
        0,
        CUTTERS_MARKED,
    ),
    (
        LOW,
        &["point", "a.cls", "0", "0", "0", "--depth", "0"],
        3,
        "refused: cl line 3: CutterHeight\n",
    ),
    (
        b"FROM/0,0,0\nGOTO/1,x,2\n",
        &["point", "a.cls", "0", "0", "0", "--depth", "0"],
        3,
        "refused: cl line 2: NumberSyntax\n",
    ),
    (
        LARGEST,
        &["point", "a.cls", "0", "0", "0", "--depth", "11"],
        2,
        USAGE,
    ),
    (
        b"",
        &["point", "b.cls", "0", "0", "0", "--depth", "0"],
        4,
        "",
    ),
];

#[test]
fn marks_each_move_or_refuses(rt: HostRuntime) -> Result<(), Fail> {
    for (file, words, code, text) in &POINTS {
        let is_due = is_answered(
            &rt,
            rt.alloc(),
            words,
            &[("a.cls", file)],
            &[],
            &[],
            (*code, text),
        )?;
        assert!(rt; is_due, "the text of {text}");
    }
    Ok(())
}
