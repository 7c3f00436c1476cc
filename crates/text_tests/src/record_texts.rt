use cl_lines::{ClEnd, ClWhy, Lines, fits};
use std::alloc::Global;

/// Bytes, the record texts that they stand for, each with the number of its first line, and where a line is continued by none.
#[derive(Clone, Copy)]
struct Row {
    bytes: &'static str,
    texts: &'static [(u32, &'static str)],
    dangling: Option<u32>,
}

const ROWS: [Row; 8] = [
    Row {
        bytes: "",
        texts: &[],
        dangling: None,
    },
    // Blanks alone are no text.
    Row {
        bytes: "\n \t\r\n",
        texts: &[],
        dangling: None,
    },
    // The CR before the end of a line is left out, and lines of blanks are counted.
    Row {
        bytes: "\n\nGOTO/1,2,3\r\nFINI",
        texts: &[(3, "GOTO/1,2,3"), (4, "FINI")],
        dangling: None,
    },
    // A comment is left out, and the blank before it stays.
    Row {
        bytes: "$$ all of it\nFROM/0,0,0 $$ the rest\n",
        texts: &[(2, "FROM/0,0,0 ")],
        dangling: None,
    },
    // The line that continues is joined with nothing between, and the text has the number of its first line.
    Row {
        bytes: "A\nGOTO/1,$\n2,$ \n3\nB",
        texts: &[(1, "A"), (2, "GOTO/1,2,3"), (5, "B")],
        dangling: None,
    },
    // One dollar sign within a line continues nothing.
    Row {
        bytes: "PPRINT 5$ A",
        texts: &[(1, "PPRINT 5$ A")],
        dangling: None,
    },
    Row {
        bytes: "A\nB$",
        texts: &[(1, "A")],
        dangling: Some(2),
    },
    // The fault has the number of the text's first line.
    Row {
        bytes: "\nA$\nB$\t",
        texts: &[],
        dangling: Some(2),
    },
];

/// Whether the next text is that one.
fn is_next(lines: &mut Lines<'_>, line: u32, due: &str) -> bool {
    match lines.next_text() {
        Ok(Some(text)) => text.line == line && text.bytes.as_slice() == due.as_bytes(),
        _ => false,
    }
}

/// Whether no text is left, or the expected fault is there.
fn ends(lines: &mut Lines<'_>, dangling: Option<u32>) -> bool {
    match lines.next_text() {
        Ok(None) => dangling.is_none(),
        Err(ClEnd::Refused(fault)) => {
            matches!(fault.why, ClWhy::DanglingDollar) && dangling == Some(fault.line)
        }
        _ => false,
    }
}

/// Whether the row's texts come in order, and then its end, also when it is called once more.
fn is_row(alloc: Global, row: &Row) -> bool {
    if !fits(row.bytes.as_bytes()) {
        return false;
    }
    let mut lines = Lines::new(alloc, row.bytes.as_bytes());
    for (line, due) in row.texts {
        if !is_next(&mut lines, *line, due) {
            return false;
        }
    }
    ends(&mut lines, row.dangling) && ends(&mut lines, row.dangling)
}

#[test]
fn texts_of_records(rt: HostRuntime) {
    for row in &ROWS {
        assert!(rt; is_row(rt.alloc(), row), "{:?}", row.bytes);
    }
}
