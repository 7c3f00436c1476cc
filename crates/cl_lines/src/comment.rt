ghost use Rattle.std.specs.Prelude.{◌≡◌, ◌≤◌, length};
ghost use Rattle.cl_lines.specs.Comments.{without_comment, is_continued, record_part};

use memchr::memchr;
use vf_text::trim_end;

/// The part of a line that belongs to its record, and whether the next line goes on with it. A line without a dollar sign is
/// all of its record.
pub(crate) fn split_line_part(line: &[u8]) -> (&[u8], bool)
    ensures part { result.0.now ≡ record_part (without_comment line.now) }
    ensures continued { result.1 ≡ is_continued (without_comment line.now) }
    ensures length { length result.0.now ≤ length line.now }
{
    match memchr(b'$', line) {
        None => (line, false),
        Some(_) => split_dollar(cut_comment(line)),
    }
}

/// The line up to its comment, which begins with two dollar signs.
fn cut_comment(line: &[u8]) -> &[u8]
    ensures line { result.now ≡ without_comment line.now }
    ensures length { length result.now ≤ length line.now }
{
    for (i, b) in line.iter().enumerate() {
        if *b == b'$' && i + 1 < line.len() && line[i + 1] == b'$' {
            return &line[..i];
        }
    }
    line
}

/// A line without a comment, up to the dollar sign that continues the record, and whether there is one.
fn split_dollar(line: &[u8]) -> (&[u8], bool)
    ensures part { result.0.now ≡ record_part line.now }
    ensures continued { result.1 ≡ is_continued line.now }
    ensures length { length result.0.now ≤ length line.now }
{
    match trim_end(line).split_last() {
        None => (line, false),
        Some((last, part)) => {
            if *last == b'$' {
                (part, true)
            } else {
                (line, false)
            }
        }
    }
}
