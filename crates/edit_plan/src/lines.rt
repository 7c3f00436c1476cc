ghost use Rattle.std.specs.Prelude.{◌≡◌, ◌∷◌, ◌++◌, ◌<◌, ◌≤◌, ◌==◌, [], length, not, MatchOption};
ghost use Rattle.std.specs.List.{prefix_len};
ghost use Rattle.vf_io.specs.Pieces.{line_feed, pieces_of};
ghost use Rattle.edit_plan.specs.Limits.{most_script_bytes};
ghost use Rattle.edit_plan.specs.Script.{behind_edition, edition_of};
ghost use Rattle.edit_plan.specs.Statements.{is_edition_line};
ghost use Rattle.edit_plan.specs.Words.{words_of, worded_lines};

use crate::statement::Edition;
use crate::words::{cut_comment, is_same, split_word};
use std::marker::Model;
use vf_text::{has_only_blanks, trim_line_end};

/// A line with its number, without its line end and its comment.
#[derive(Clone, Copy)]
pub(crate) struct Line<'a> {
    pub(crate) number: u32,
    pub(crate) text: &'a [u8],
}

/// A reader of the lines that have words. Its value is the list of those that are left.
#[derive(Drop)]
pub(crate) struct Lines<'a> {
    rest: &'a [u8],
    number: u32,
}

impl<'a> Model for Lines<'a> {
    ghost use Rattle.std.specs.Prelude.{◌+◌, ◌≤◌, List, length};
    ghost use Rattle.vf_text.specs.Lines.{lines_of};
    ghost use Rattle.edit_plan.specs.Limits.{most_script_bytes};
    ghost use Rattle.edit_plan.specs.Words.{WordedLine, worded_from};

    ghost Value = { List WordedLine };

    ghost view = { λ r. worded_from r.number (lines_of r.rest.now) };

    ghost invariant = { λ r. r.number + length r.rest.now ≤ most_script_bytes + 1 };
}

impl<'a> Lines<'a> {
    /// A reader at the front of the bytes.
    pub(crate) fn new(bytes: &'a [u8]) -> Lines<'a>
        requires { length bytes.now ≤ most_script_bytes }
        ensures { result ≡ worded_lines bytes.now }
    {
        Lines {
            rest: bytes,
            number: 1,
        }
    }

    /// Takes the next line that has words.
    pub(crate) fn next_line(&mut self) -> Option<Line<'a>>
        ensures { MatchOption result ((self.old ≡ []) × (self.new ≡ []))
            (λ line. self.old ≡ record { number = line.number; words = words_of line.text.now } ∷ self.new) }
    {
        while !self.rest.is_empty() {
            let (piece, behind) = split_short_line(self.rest);
            let text = cut_comment(trim_line_end(piece));
            let number = self.number;
            self.rest = behind;
            self.number = number + 1;
            if !has_only_blanks(text) {
                return Some(Line { number, text });
            }
        }
        None
    }

    /// The edition of the script. The first line is taken where it states the edition.
    pub(crate) fn take_edition(&mut self) -> Edition
        ensures edition { result ≡ edition_of self.old }
        ensures behind { self.new ≡ behind_edition self.old }
    {
        let mut behind = Lines {
            rest: self.rest,
            number: self.number,
        };
        match behind.next_line() {
            Some(line) if tells_edition(line.text) => {
                self.rest = behind.rest;
                self.number = behind.number;
                Edition::Second
            }
            _ => Edition::First,
        }
    }
}

/// The first line of a text, with its line end, and the text after it. The lines of a script are short, so it looks at one byte
/// after the other.
fn split_short_line(text: &[u8]) -> (&[u8], &[u8])
    requires { 0 < length text.now }
    ensures first { pieces_of text.now ≡ result.0.now ∷ pieces_of result.1.now }
    ensures whole { text.now ≡ result.0.now ++ result.1.now }
    ensures some { 0 < length result.0.now }
{
    let ahead = line_len(text);
    if ahead == text.len() {
        return text.split_at(ahead);
    }
    text.split_at(ahead + 1)
}

/// How many bytes come before the first line's end.
fn line_len(text: &[u8]) -> usize
    ensures count { result ≡ prefix_len (λ b. not (b == line_feed)) text.now }
    ensures within { result ≤ length text.now }
{
    for (i, b) in text.iter().enumerate() {
        if *b == b'\n' {
            return i;
        }
    }
    text.len()
}

/// Whether a line is the one that states the second edition.
fn tells_edition(text: &[u8]) -> bool
    ensures { result ≡ is_edition_line (words_of text.now) }
{
    let Some((word, behind)) = split_word(text) else {
        return false;
    };
    let Some((number, behind)) = split_word(behind) else {
        return false;
    };
    let None = split_word(behind) else {
        return false;
    };
    is_same(word, b"edition") && is_same(number, b"2")
}
