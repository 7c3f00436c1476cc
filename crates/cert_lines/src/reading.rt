ghost use Rattle.std.specs.Prelude.{◌≡◌, [], Ok, MatchResult};
ghost use Rattle.ray_grid.specs.Lattice.{is_ray_on};
ghost use Rattle.cert_lines.specs.Certificates.{is_span_on};
ghost use Rattle.cert_lines.specs.Reading.{EndsCert, EndsCertLine, ended, nothing_read, with_cell, with_end};
ghost use Rattle.cert_lines.specs.Reading.{with_form, with_opening, with_ray, with_slabs};

use crate::cell::{Cells, CertCell};
use crate::cert::Cert;
use crate::fault::{CertEnd, CertWhy};
use crate::line::{Form, Span};
use ray_grid::{Family, Grid, Ray};

/// Why a line adds nothing.
#[derive(Clone, Copy)]
pub(crate) enum Stop {
    Refused(CertWhy),
    NoMemory,
}

/// The most slabs of a certificate.
const MAX_SLABS: u32 = 256;

/// The deepest level of the parts of a move's time.
const MAX_LEVEL: u32 = 10;

/// Which line may come next.
#[derive(Clone, Copy)]
pub(crate) enum Due {
    /// The line `cert 1`.
    First,
    /// The line `slabs N`.
    Second,
    /// A ray line, or `end`.
    AnyRay,
    /// A cell of this ray, a ray line, or `end`.
    CellOf(Ray),
    /// No line.
    Nothing,
}

/// A certificate that grows, line by line.
#[derive(Drop)]
pub(crate) struct Reading {
    pub(crate) due: Due,
    pub(crate) slabs: u32,
    pub(crate) cells: Cells,
}

impl Reading {
    /// Nothing was read so far.
    pub(crate) fn new(cells: Cells) -> Reading
        requires { cells ≡ [] }
        ensures { result ≡ nothing_read }
    {
        Reading {
            due: Due::First,
            slabs: 0,
            cells,
        }
    }

    /// Adds what the line of this number says.
    pub(crate) fn add(&mut self, number: u32, form: Form, grid: &Grid) -> Result<(), Stop>
        ensures { MatchResult result (λ _. with_form grid.now number form self.old ≡ Ok self.new)
            (EndsCertLine (with_form grid.now number form self.old)) }
    {
        match form {
            Form::Opening => self.open(),
            Form::Slabs(slabs) => self.take_slabs(slabs),
            Form::OfRay(ray) => self.take_ray(ray, grid),
            Form::OfCell(span) => self.add_cell(number, span, grid),
            Form::End => self.end(),
        }
    }

    /// The line `cert 1`.
    fn open(&mut self) -> Result<(), Stop>
        ensures { MatchResult result (λ _. with_opening self.old ≡ Ok self.new) (EndsCertLine (with_opening self.old)) }
    {
        match self.due {
            Due::First => {
                self.due = Due::Second;
                Ok(())
            }
            _ => Err(Stop::Refused(CertWhy::CertSyntax)),
        }
    }

    /// The number of slabs.
    fn take_slabs(&mut self, slabs: u32) -> Result<(), Stop>
        ensures { MatchResult result (λ _. with_slabs slabs self.old ≡ Ok self.new) (EndsCertLine (with_slabs slabs self.old)) }
    {
        match self.due {
            Due::Second => {
                if slabs < 1 || slabs > MAX_SLABS {
                    return Err(Stop::Refused(CertWhy::CertRange));
                }
                self.due = Due::AnyRay;
                self.slabs = slabs;
                Ok(())
            }
            _ => Err(Stop::Refused(CertWhy::CertSyntax)),
        }
    }

    /// The ray of the cells that follow.
    fn take_ray(&mut self, ray: Ray, grid: &Grid) -> Result<(), Stop>
        ensures { MatchResult result (λ _. with_ray grid.now ray self.old ≡ Ok self.new) (EndsCertLine (with_ray grid.now ray self.old)) }
    {
        match self.due {
            Due::AnyRay | Due::CellOf(_) => {
                if !has_ray(grid, ray) {
                    return Err(Stop::Refused(CertWhy::CertRange));
                }
                self.due = Due::CellOf(ray);
                Ok(())
            }
            _ => Err(Stop::Refused(CertWhy::CertSyntax)),
        }
    }

    /// A cell of the ray of the last ray line.
    fn add_cell(&mut self, number: u32, span: Span, grid: &Grid) -> Result<(), Stop>
        ensures { MatchResult result (λ _. with_cell grid.now number span self.old ≡ Ok self.new)
            (EndsCertLine (with_cell grid.now number span self.old)) }
    {
        match self.due {
            Due::CellOf(ray) => {
                let Span { q, k, a, b } = span;
                let line = u64::from(number);
                let cell = CertCell {
                    line,
                    ray,
                    q,
                    k,
                    a,
                    b,
                };
                if !is_span_on(&cell, grid) {
                    return Err(Stop::Refused(CertWhy::CertRange));
                }
                match self.cells.push(cell) {
                    Ok(()) => Ok(()),
                    Err(_) => Err(Stop::NoMemory),
                }
            }
            _ => Err(Stop::Refused(CertWhy::CertSyntax)),
        }
    }

    /// The line `end`.
    fn end(&mut self) -> Result<(), Stop>
        ensures { MatchResult result (λ _. with_end self.old ≡ Ok self.new) (EndsCertLine (with_end self.old)) }
    {
        match self.due {
            Due::AnyRay | Due::CellOf(_) => {
                self.due = Due::Nothing;
                Ok(())
            }
            _ => Err(Stop::Refused(CertWhy::CertSyntax)),
        }
    }

    /// What was read, where the text may end before the line of this number.
    pub(crate) fn finish(self, number: u32) -> Result<Cert, CertEnd>
        ensures { MatchResult result (λ cert. ended number self ≡ Ok cert) (EndsCert (ended number self)) }
    {
        match self.due {
            Due::Nothing => Ok(Cert {
                slabs: self.slabs,
                cells: self.cells,
            }),
            _ => Err(CertEnd::refused(number, CertWhy::CertSyntax)),
        }
    }
}

/// Whether the ray's nodes are nodes of the grid.
fn has_ray(grid: &Grid, ray: Ray) -> bool
    ensures { result ≡ is_ray_on grid.now ray }
{
    match ray.family {
        Family::X => ray.i < grid.counts[1] && ray.j < grid.counts[2],
        Family::Y => ray.i < grid.counts[0] && ray.j < grid.counts[2],
        Family::Z => ray.i < grid.counts[0] && ray.j < grid.counts[1],
    }
}

/// Whether the part of the time is there, and the points are some of those of the cell's ray.
fn is_span_on(cell: &CertCell, grid: &Grid) -> bool
    ensures { result ≡ is_span_on grid.now cell.now }
{
    cell.q <= MAX_LEVEL
        && cell.k < 1 << cell.q
        && cell.a < cell.b
        && cell.b <= grid.points(cell.ray.family)
}
