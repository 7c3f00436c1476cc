ghost use Rattle.std.specs.Prelude.{◌≡◌, ◌+◌, ◌<◌, ◌≤◌, ◌∷◌, length, vec_len, IfOk, MatchResult};
ghost use Rattle.vf_text.specs.Lines.{lines_of};
ghost use Rattle.cl_lines.specs.Texts.{joined_from, most_bytes, most_text, JoinEnds};

use crate::comment::split_line_part;
use crate::text::MAX_TEXT;
use vf_io::split_line;
use vf_text::trim_line_end;

/// What comes after a record's lines: the bytes, the number of their first line, and whether the last
/// line of the record is continued but no line follows.
#[derive(Drop)]
pub(crate) struct Joined<'a> {
    pub(crate) behind: &'a [u8],
    pub(crate) line: u32,
    pub(crate) dangling: bool,
}

/// Why a record's lines were not joined.
#[derive(Clone, Copy)]
pub(crate) enum JoinEnd {
    TooLong,
    NoMemory,
}

/// Joins the lines of the first record into `room`, in place of what it holds.
pub(crate) fn join_lines<'a>(
    bytes: &'a [u8],
    line: u32,
    room: &mut Vec<u8>,
) -> Result<Joined<'a>, JoinEnd>
    requires some { 0 < length bytes.now }
    requires small { line + length bytes.now ≤ most_bytes + 1 }
    ensures joined { MatchResult result
        (λ j. joined_from line (lines_of bytes.now)
        ≡ record { line = line; bytes = room.new.items; dangling = j.dangling } ∷ joined_from j.line (lines_of j.behind.now))
        (JoinEnds (joined_from line (lines_of bytes.now))) }
    ensures short { IfOk result (λ j. vec_len room.new ≤ most_text) }
    ensures small { IfOk result (λ j. j.line + length j.behind.now ≤ most_bytes + 1) }
    ensures less { IfOk result (λ j. length j.behind.now < length bytes.now) }
{
    room.clear();
    let mut rest = bytes;
    let mut number = line;
    while !rest.is_empty() {
        let (piece, behind) = split_line(rest);
        let (part, continued) = split_line_part(trim_line_end(piece));
        if part.len() > MAX_TEXT - room.len() {
            return Err(JoinEnd::TooLong);
        }
        if room.extend_from_slice(part).is_err() {
            return Err(JoinEnd::NoMemory);
        }
        rest = behind;
        number += 1;
        if !continued {
            return Ok(Joined {
                behind: rest,
                line: number,
                dangling: false,
            });
        }
    }
    Ok(Joined {
        behind: rest,
        line: number,
        dangling: true,
    })
}
