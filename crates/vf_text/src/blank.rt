ghost use Rattle.std.specs.Prelude.{◌≡◌, ◌≤◌, length};
ghost use Rattle.std.specs.List.{prefix_len};
ghost use Rattle.vf_text.specs.Blanks.{behind_blanks, is_blank, is_blank_text, without_last_blanks};

/// Whether a byte is a space or a tab.
pub fn is_blank_byte(b: u8) -> bool
    ensures { result ≡ is_blank b }
{
    b == b' ' || b == b'\t'
}

/// Whether a text has nothing but blanks.
pub fn has_only_blanks(text: &[u8]) -> bool
    ensures { result ≡ is_blank_text text.now }
{
    text.iter().all(|b| is_blank_byte(*b))
}

/// A text without the blanks in front.
pub fn skip_blanks(text: &[u8]) -> &[u8]
    ensures text { result.now ≡ behind_blanks text.now }
    ensures length { length result.now ≤ length text.now }
{
    &text[blank_len(text)..]
}

/// How many blanks are in front.
fn blank_len(text: &[u8]) -> usize
    ensures count { result ≡ prefix_len is_blank text.now }
    ensures within { result ≤ length text.now }
{
    for (i, b) in text.iter().enumerate() {
        if !is_blank_byte(*b) {
            return i;
        }
    }
    text.len()
}

/// A text without the blanks at its end.
pub fn trim_end(text: &[u8]) -> &[u8]
    ensures text { result.now ≡ without_last_blanks text.now }
    ensures length { length result.now ≤ length text.now }
{
    let mut rest = text;
    while let Some((last, front)) = rest.split_last() {
        if !is_blank_byte(*last) {
            return rest;
        }
        rest = front;
    }
    rest
}
