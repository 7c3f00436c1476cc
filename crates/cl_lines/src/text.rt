ghost use Rattle.std.specs.Prelude.{◌≡◌, ◌≤◌, length, nat_le, MatchResult, option_map, Ok};
ghost use Rattle.vf_text.specs.Lines.{lines_of};
ghost use Rattle.cl_lines.specs.Next.{next_of, Ends};
ghost use Rattle.cl_lines.specs.Texts.{most_bytes, texts_of};

use crate::fault::{ClEnd, ClWhy};
use crate::join::{JoinEnd, join_lines};
use std::alloc::Global;
use std::marker::Model;
use vf_text::has_only_blanks;

/// The most bytes of a record text.
pub const MAX_TEXT: usize = 4096;

/// The most bytes of a cutter location text.
pub const MAX_BYTES: usize = 67_108_864;

/// Whether a text has no more bytes than a cutter location text may have.
pub fn fits(bytes: &[u8]) -> bool
    ensures { result ≡ nat_le (length bytes.now) most_bytes }
{
    bytes.len() <= MAX_BYTES
}

/// A record text with the number of the line where it begins.
#[derive(Drop)]
pub struct Text {
    pub line: u32,
    pub bytes: Vec<u8>,
}

/// A reader of record texts, in the order of their lines. Its value is the list of those that are left.
#[derive(Drop)]
pub struct Lines<'a> {
    rest: &'a [u8],
    line: u32,
    alloc: Global,
}

impl<'a> Model for Lines<'a> {
    ghost use Rattle.std.specs.Prelude.{◌+◌, ◌≤◌, List, length};
    ghost use Rattle.vf_text.specs.Lines.{lines_of};
    ghost use Rattle.cl_lines.specs.Texts.{Numbered, most_bytes, texts_from};
    ghost use Rattle.std.specs.Prelude.{ℕ};

    ghost Value = { List (Numbered (List ℕ)) };

    ghost view = { λ r. texts_from r.line (lines_of r.rest.now) };

    ghost invariant = { λ r. r.line + length r.rest.now ≤ most_bytes + 1 };
}

impl<'a> Lines<'a> {
    /// A reader at the front of the bytes.
    pub fn new(alloc: Global, bytes: &'a [u8]) -> Lines<'a>
        requires { length bytes.now ≤ most_bytes }
        ensures texts { result ≡ texts_of bytes.now }
        ensures few { length result ≤ length bytes.now }
    {
        Lines {
            rest: bytes,
            line: 1,
            alloc,
        }
    }

    /// Another reader at the same place.
    pub fn again(&self) -> Lines<'a>
        ensures { result ≡ self.now }
    {
        Lines {
            rest: self.rest,
            line: self.line,
            alloc: self.alloc,
        }
    }

    /// The next record text that has more than blanks. It changes nothing where it gives none.
    pub fn next_text(&mut self) -> Result<Option<Text>, ClEnd>
        ensures { MatchResult result
            (λ t. next_of self.old ≡ Ok (option_map (λ x. (x.line, x.bytes.items)) t, self.new))
            (Ends self.old self.new) }
    {
        let mut bytes = Vec::new(self.alloc);
        match self.next_into(&mut bytes)? {
            Some(line) => Ok(Some(Text { line, bytes })),
            None => Ok(None),
        }
    }

    /// The next record text that has more than blanks replaces what `room` holds; the answer
    /// is its line. The reader is unchanged where it gives none.
    pub fn next_into(&mut self, room: &mut Vec<u8>) -> Result<Option<u32>, ClEnd>
        ensures { MatchResult result
            (λ n. next_of self.old ≡ Ok (option_map (λ line. (line, room.new.items)) n, self.new))
            (Ends self.old self.new) }
    {
        while !self.rest.is_empty() {
            let number = self.line;
            let joined = match join_lines(self.rest, number, room) {
                Ok(joined) => joined,
                Err(JoinEnd::TooLong) => return Err(ClEnd::refused(number, ClWhy::LineLong)),
                Err(JoinEnd::NoMemory) => return Err(ClEnd::NoMemory),
            };
            if joined.dangling {
                return Err(ClEnd::refused(number, ClWhy::DanglingDollar));
            }
            self.rest = joined.behind;
            self.line = joined.line;
            if !has_only_blanks(room) {
                return Ok(Some(number));
            }
        }
        Ok(None)
    }
}
