ghost use Rattle.std.specs.Prelude.{◌≡◌, ◌+◌, IfOk, OnOk};
ghost use Rattle.cert_boxes.specs.Drafts.{empty_draft, with_box};

use cert_lines::{Cells, CertCell, is_last};
use ray_grid::Ray;
use std::alloc::Global;
use vf_io::NoMemory;

/// A certificate's cells as they are made: the number of the line that comes next, and the ray of the last cell.
#[derive(Drop)]
pub struct Draft {
    pub cells: Cells,
    pub number: u64,
    pub last: Option<Ray>,
}

/// The number of the first line after the two that begin a certificate.
const FIRST_LINE: u64 = 3;

impl Draft {
    /// No cells yet.
    pub fn new(alloc: Global) -> Draft
        ensures { result ≡ empty_draft }
    {
        Draft {
            cells: Cells::new(alloc),
            number: FIRST_LINE,
            last: None,
        }
    }

    /// Adds a cell at the end, with the number of its line: one line further where a ray line comes before it.
    pub fn push(&mut self, cell: CertCell) -> Result<(), NoMemory>
        ensures { OnOk result (self.new ≡ with_box self.old cell) }
    {
        let line = if is_last(self.last, cell.ray) {
            self.number
        } else {
            next_line(self.number)?
        };
        let next = next_line(line)?;
        self.cells.push(CertCell { line, ..cell })?;
        self.number = next;
        self.last = Some(cell.ray);
        Ok(())
    }
}

/// The number of the line after one. No memory has room for so many cells that the numbers run out.
fn next_line(line: u64) -> Result<u64, NoMemory>
    ensures { IfOk result (λ next. next ≡ line + 1) }
{
    match line.checked_add(1) {
        Some(next) => Ok(next),
        None => Err(NoMemory),
    }
}
