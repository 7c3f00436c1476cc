ghost use Rattle.std.specs.Prelude.{◌≡◌, ◌≤◌, length};
ghost use Rattle.vf_text.specs.Lines.{line_of, without_last};

/// A line without its line end: LF, and CR before it or at the end of the bytes.
pub fn trim_line_end(piece: &[u8]) -> &[u8]
    ensures line { result.now ≡ line_of piece.now }
    ensures length { length result.now ≤ length piece.now }
{
    strip_last(b'\r', strip_last(b'\n', piece))
}

/// The bytes without the last one, where that is the given byte.
fn strip_last(end: u8, bytes: &[u8]) -> &[u8]
    ensures bytes { result.now ≡ without_last end bytes.now }
    ensures length { length result.now ≤ length bytes.now }
{
    match bytes.split_last() {
        Some((last, front)) if *last == end => front,
        _ => bytes,
    }
}
