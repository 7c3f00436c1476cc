ghost use Rattle.std.specs.Prelude.{◌≡◌, ◌∷◌, ◌≤◌, ◌==◌, [], not, length};
ghost use Rattle.std.specs.List.{prefix_len};
ghost use Rattle.std.specs.Option.{option_map_or};
ghost use Rattle.std.specs.Str.{bytes_eq};
ghost use Rattle.vf_text.specs.Blanks.{is_blank};
ghost use Rattle.edit_plan.specs.Words.{ahead_of_comment, hash, words_of};

use vf_text::{is_blank_byte, skip_blanks};

/// The part of a line before its comment.
pub(crate) fn cut_comment(line: &[u8]) -> &[u8]
    ensures { result.now ≡ ahead_of_comment line.now }
{
    &line[..comment_start(line)]
}

/// How many bytes come before the comment.
fn comment_start(line: &[u8]) -> usize
    ensures count { result ≡ prefix_len (λ b. not (b == hash)) line.now }
    ensures within { result ≤ length line.now }
{
    for (i, b) in line.iter().enumerate() {
        if *b == b'#' {
            return i;
        }
    }
    line.len()
}

/// The first word of a text, and the text after it.
pub(crate) fn split_word(text: &[u8]) -> Option<(&[u8], &[u8])>
    ensures { words_of text.now ≡ option_map_or (λ cut. cut.0.now ∷ words_of cut.1.now) result [] }
{
    let front = skip_blanks(text);
    if front.is_empty() {
        return None;
    }
    Some(front.split_at(word_len(front)))
}

/// How many bytes that are no blanks are in front.
fn word_len(text: &[u8]) -> usize
    ensures count { result ≡ prefix_len (λ b. not (is_blank b)) text.now }
    ensures within { result ≤ length text.now }
{
    for (i, b) in text.iter().enumerate() {
        if is_blank_byte(*b) {
            return i;
        }
    }
    text.len()
}

/// Whether a word is this one.
pub(crate) fn is_same(word: &[u8], name: &[u8]) -> bool
    ensures { result ≡ bytes_eq word.now name.now }
{
    word == name
}
