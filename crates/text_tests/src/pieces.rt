use std::alloc::Global;
use std::test::Fail;
use vf_io::NoMemory;
use vf_text::{Page, has_only_blanks, read_count, skip_blanks, trim_end, trim_line_end};

/// Texts, the most digits, and the expected number.
const COUNTS: [(&str, usize, Option<u32>); 12] = [
    ("0", 1, Some(0)),
    ("7", 9, Some(7)),
    ("007", 3, Some(7)),
    ("256", 3, Some(256)),
    ("999999999", 9, Some(999_999_999)),
    ("12", 1, None),
    ("0001", 3, None),
    ("1000000000", 9, None),
    ("", 9, None),
    ("-1", 9, None),
    ("1 ", 9, None),
    ("1/:", 9, None),
];

/// Whether the text has this count.
fn is_count(text: &str, most: usize, due: Option<u32>) -> bool {
    most <= 9 && read_count(text.as_bytes(), most) == due
}

#[test]
fn counts(rt: HostRuntime) {
    for (text, most, due) in &COUNTS {
        assert!(rt; is_count(text, *most, *due), "the count {text:?}");
    }
}

/// A text, and what is left without its line end, the blanks in front of that, and those at its end.
type Trimmed = (&'static [u8], &'static [u8], &'static [u8], &'static [u8]);

const LINES: [Trimmed; 6] = [
    (b"\n", b"", b"", b""),
    (b" a\tb \r\n", b" a\tb ", b"a\tb ", b" a\tb"),
    (b"\t\ta\r", b"\t\ta", b"a", b"\t\ta"),
    (b"a\r\r\n", b"a\r", b"a\r", b"a\r"),
    (b" \t \n", b" \t ", b"", b""),
    (b"\x0ba", b"\x0ba", b"\x0ba", b"\x0ba"),
];

/// Whether that is left of the text, which has only blanks where nothing is left after them.
fn is_trimmed(row: &Trimmed) -> bool {
    let (piece, line, behind, front) = *row;
    let trimmed = trim_line_end(piece);
    trimmed == line
        && skip_blanks(trimmed) == behind
        && trim_end(trimmed) == front
        && has_only_blanks(trimmed) == behind.is_empty()
}

#[test]
fn lines(rt: HostRuntime) {
    for (number, row) in LINES.iter().enumerate() {
        assert!(rt; is_trimmed(row), "line {number}");
    }
}

/// A page of two lines.
fn page(alloc: Global) -> Result<Vec<u8>, NoMemory> {
    let mut page = Page::with_room(alloc, 40)?;
    page.text(b"at")?;
    page.point(&[0, -1_000_000, i32::MIN])?;
    page.end_line()?;
    page.count(67_108_864)?;
    page.space()?;
    page.number(-7)?;
    Ok(page.into_vec())
}

#[test]
fn pages(rt: HostRuntime) -> Result<(), Fail> {
    let due = b"at 0 -1000000 -2147483648\n67108864 -7";
    assert!(rt; page(rt.alloc())?.as_slice() == due.as_slice(), "the page");
    Ok(())
}
