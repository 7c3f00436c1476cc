ghost use Rattle.std.specs.Prelude.{◌≡◌, ◌≤◌, length, IfOk, IfSome, MatchResult, Ok};
ghost use Rattle.cl_lines.specs.Next.{next_of, Ends};
ghost use Rattle.cl_lines.specs.Texts.{most_bytes, texts_of};
ghost use Rattle.cl_lines.specs.declared.number.Unit.TheVariants.{Mm};
ghost use Rattle.cl_records.specs.Ranges.{IsRecord};
ghost use Rattle.cl_records.specs.Records.{records_of};

use crate::statement::{Record, read_record};
use cl_lines::{ClEnd, Lines, Unit};
use std::alloc::Global;
use std::marker::Model;

/// A reader of records. Its value is the list of those that are left, each with its line.
#[derive(Drop)]
pub struct Records<'a> {
    lines: Lines<'a>,
    text: Vec<u8>,
    unit: Unit,
    ended: bool,
}

impl<'a> Model for Records<'a> {
    ghost use Rattle.std.specs.Prelude.{List, [], if◌then◌else◌};
    ghost use Rattle.cl_lines.specs.Texts.{Numbered};
    ghost use Rattle.cl_records.specs.Records.{records_of};
    ghost use Rattle.cl_records.specs.declared.statement.Record.{Record};

    ghost Value = { List (Numbered Record) };

    ghost view = { λ r. if r.ended then [] else records_of r.unit r.lines };
}

impl<'a> Records<'a> {
    /// A reader at the front of the bytes.
    pub fn new(alloc: Global, bytes: &'a [u8]) -> Records<'a>
        requires { length bytes.now ≤ most_bytes }
        ensures records { result ≡ records_of Mm (texts_of bytes.now) }
        ensures few { length result ≤ length bytes.now }
    {
        Records {
            lines: Lines::new(alloc, bytes),
            text: Vec::new(alloc),
            unit: Unit::Mm,
            ended: false,
        }
    }

    /// The next record, with the number of its first line. It gives none after FINI. It changes
    /// nothing where it gives none.
    pub fn next_record(&mut self) -> Result<Option<(u32, Record)>, ClEnd>
        ensures next { MatchResult result (λ r. next_of self.old ≡ Ok (r, self.new)) (Ends self.old self.new) }
        ensures ranges { IfOk result (λ r. IfSome r (λ x. IsRecord x.1)) }
    {
        if self.ended {
            return Ok(None);
        }
        let mut lines = self.lines.again();
        let Some(line) = lines.next_into(&mut self.text)? else {
            return Ok(None);
        };
        match read_record(self.unit, self.text.as_slice()) {
            Ok(record) => {
                self.lines = lines;
                self.unit = record.unit_behind(self.unit);
                self.ended = record.is_fini();
                Ok(Some((line, record)))
            }
            Err(why) => Err(ClEnd::refused(line, why)),
        }
    }
}
