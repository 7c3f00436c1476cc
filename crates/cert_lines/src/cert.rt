ghost use Rattle.std.specs.Prelude.{◌≡◌, ◌≤◌, ◌+◌, ◌<◌, length, nat_le, count_by, Ok, IfOk, MatchResult};
ghost use Rattle.vf_io.specs.Pieces.{pieces_of};
ghost use Rattle.cert_lines.specs.Certificates.{IsInRange};
ghost use Rattle.cert_lines.specs.Limits.{most_cert_bytes};
ghost use Rattle.cert_lines.specs.Reading.{EndsCert, cert_of};

use crate::cell::Cells;
use crate::fault::{CertEnd, CertWhy};
use crate::line::read_form;
use crate::reading::{Reading, Stop};
use ray_grid::Grid;
use std::alloc::Global;
use vf_io::split_line;

/// A certificate: into how many slabs the cutter's corner was cut, and which points are not met during which part of the time.
#[derive(Drop)]
pub struct Cert {
    pub slabs: u32,
    pub cells: Cells,
}

/// The most bytes of a certificate's text.
pub const MAX_CERT_BYTES: usize = 67_108_864;

/// The fewest bytes of a cell line, with its line end.
const MIN_CELL_BYTES: usize = 13;

/// Whether a text has no more bytes than a certificate's may have.
pub fn fits_cert(bytes: &[u8]) -> bool
    ensures { result ≡ nat_le (length bytes.now) most_cert_bytes }
{
    bytes.len() <= MAX_CERT_BYTES
}

/// Reads the certificate that the bytes stand for, over a grid. A refusal is the first fault by line, then by the order in which
/// one line is judged. It takes memory once, for no more cells than there are lines that may be one.
pub fn read_cert(alloc: Global, grid: &Grid, bytes: &[u8]) -> Result<Cert, CertEnd>
    requires { length bytes.now ≤ most_cert_bytes }
    ensures cert { MatchResult result (λ cert. cert_of grid.now bytes.now ≡ Ok cert) (EndsCert (cert_of grid.now bytes.now)) }
    ensures ranges { IfOk result (IsInRange grid.now) }
    ensures few { IfOk result (λ cert. length cert.cells ≤ length bytes.now) }
{
    let Ok(cells) = Cells::with_room(alloc, cell_lines(bytes)) else {
        return Err(CertEnd::NoMemory);
    };
    let mut reading = Reading::new(cells);
    let mut rest = bytes;
    let mut number: u32 = 1;
    while !rest.is_empty() {
        let (piece, after) = split_line(rest);
        let Some(form) = read_form(piece) else {
            return Err(CertEnd::refused(number, CertWhy::CertSyntax));
        };
        match reading.add(number, form, grid) {
            Ok(()) => {}
            Err(Stop::Refused(why)) => return Err(CertEnd::refused(number, why)),
            Err(Stop::NoMemory) => return Err(CertEnd::NoMemory),
        }
        rest = after;
        number += 1;
    }
    reading.finish(number)
}

/// How many lines of a text may be cell lines: they are as long as one, and begin like one.
fn cell_lines(bytes: &[u8]) -> usize
    ensures { result ≤ length bytes.now }
{
    let mut count = 0;
    let mut rest = bytes;
    while !rest.is_empty() {
        let (piece, after) = split_line(rest);
        if piece.len() >= MIN_CELL_BYTES && piece[0] == b'c' {
            count += 1;
        }
        rest = after;
    }
    count
}
