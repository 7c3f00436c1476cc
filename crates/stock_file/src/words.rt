ghost use Rattle.std.specs.Prelude.{◌≡◌, ◌∷◌, ◌≤◌, ◌==◌, [], not, length, ◌<◌, IfSome};
ghost use Rattle.std.specs.List.{prefix_len};
ghost use Rattle.std.specs.Option.{option_map, option_map_or};
ghost use Rattle.std.specs.Str.{bytes_eq};
ghost use Rattle.vf_text.specs.Blanks.{blank_space};
ghost use Rattle.cert_lines.specs.Words.{line_in, words_after, spaced_words};

/// The first word of a line, and what follows it: nothing, or a space and the other words.
pub(crate) fn split_word(text: &[u8]) -> (&[u8], &[u8])
    ensures words { spaced_words text.now ≡ result.0.now ∷ words_after result.1.now }
    ensures shorter { length result.1.now ≤ length text.now }
{
    text.split_at(word_len(text))
}

/// The next word after a word, and what follows it.
pub(crate) fn split_next(after: &[u8]) -> Option<(&[u8], &[u8])>
    ensures words { words_after after.now ≡ option_map_or (λ cut. cut.0.now ∷ words_after cut.1.now) result [] }
    ensures shorter { IfSome result (λ cut. length cut.1.now < length after.now) }
{
    match after.split_first() {
        Some((_, text)) => Some(split_word(text)),
        None => None,
    }
}

/// How many bytes before the first space.
fn word_len(text: &[u8]) -> usize
    ensures count { result ≡ prefix_len (λ b. not (b == blank_space)) text.now }
    ensures within { result ≤ length text.now }
{
    for (i, b) in text.iter().enumerate() {
        if *b == b' ' {
            return i;
        }
    }
    text.len()
}

/// Whether a word is this one.
pub(crate) fn is_same(word: &[u8], name: &[u8]) -> bool
    ensures { result ≡ bytes_eq word.now name.now }
{
    word == name
}

/// A line without its line end, where it has one.
pub(crate) fn whole_line(piece: &[u8]) -> Option<&[u8]>
    ensures { line_in piece.now ≡ option_map (λ text. text.now) result }
{
    let (last, text) = piece.split_last()?;
    if *last != b'\n' {
        return None;
    }
    Some(text)
}
