ghost use Rattle.std.specs.Prelude.{◌≡◌, ℕ, ◌+◌, ◌<◌, ◌≤◌, ◌++◌, [], ◌∷◌, true, nat_eq, length, slice_index_or, if◌then◌else◌, IfOk, OnOk};
ghost use Rattle.std.specs.List.{list_all};
ghost use Rattle.cert_lines.specs.Certificates.{is_cell_on};
ghost use Rattle.cert_boxes.specs.Holding.{IsLineInRange};
ghost use Rattle.cert_boxes.specs.Rows.{AreAlike, AreRows, covers_throughout, span_of};
ghost use Rattle.vf_spans.specs.Members.{has};

use crate::cover::cover_of;
use crate::span::CellSpan;
use axis_cells::cells_of;
use cert_lines::CertCell;
use ray_grid::Grid;
use std::alloc::Global;
use std::marker::Model;
use vf_io::NoMemory;
use vf_spans::Spans;

/// What the lines say of one ray, in any order. It is seen as a list.
#[derive(Drop)]
pub struct Row {
    spans: Vec<CellSpan>,
}

impl Model for Row {
    ghost use Rattle.std.specs.Prelude.{List};
    ghost use Rattle.cert_boxes.specs.declared.span.CellSpan.{CellSpan};

    ghost Value = { List CellSpan };

    ghost view = { λ row. row.spans.items };
}

impl Row {
    /// No lines yet, with room for so many. None take no memory.
    fn with_room(alloc: Global, room: usize) -> Result<Row, NoMemory>
        ensures { IfOk result (λ row. row ≡ []) }
    {
        match Vec::with_capacity(alloc, room) {
            Ok(spans) => Ok(Row { spans }),
            Err(_) => Err(NoMemory),
        }
    }

    /// Adds what one more line says.
    fn push(&mut self, span: CellSpan) -> Result<(), NoMemory>
        ensures { OnOk result (self.new ≡ self.old ++ span ∷ []) }
    {
        self.spans.push(span)?;
        Ok(())
    }

    /// The indices below a bound that the lines cover at all times. The lines' order changes.
    pub fn cover(&mut self, alloc: Global, bound: u32) -> Result<Spans, NoMemory>
        ensures bound { IfOk result (λ set. length set ≡ bound) }
        ensures exact { IfOk result (λ set. (l : ℕ) → l < bound → has set l ≡ covers_throughout self.old l) }
        ensures alike { OnOk result (AreAlike self.new self.old) }
    {
        let set = cover_of(alloc, self.spans.as_mut_slice(), 10, 0, bound)?;
        Ok(set)
    }
}

/// What a line says of its ray.
fn span_of(cell: &CertCell, grid: &Grid) -> CellSpan
    requires { IsLineInRange grid.now cell.now }
    ensures { result ≡ span_of cell.now }
{
    // Reading a field gives the prover its range.
    let _valid = &grid.origin;
    let each = cells_of(10 - cell.q);
    let from = cell.k * each;
    CellSpan {
        from: from as u16,
        to: (from + each) as u16,
        a: cell.a,
        b: cell.b,
    }
}

/// How many lines each ray has, by its number. Rows take their room by it, so that no row grows: its numbers are of no other weight.
fn counts_of(alloc: Global, grid: &Grid, cells: &[CertCell]) -> Result<Vec<u32>, NoMemory>
    requires { list_all (is_cell_on grid.now) cells.now ≡ true }
{
    let mut counts = Vec::new(alloc);
    for cell in cells {
        count_one(&mut counts, grid.ray_number(&cell.ray))?;
    }
    Ok(counts)
}

/// Counts one line more of the ray of a number.
fn count_one(counts: &mut Vec<u32>, number: u32) -> Result<(), NoMemory> {
    let at = number as usize;
    while counts.len() <= at {
        counts.push(0)?;
    }
    counts[at] = counts[at].saturating_add(1);
    Ok(())
}

/// How many lines the ray of a number has, by the counts.
fn room_of(counts: &[u32], number: usize) -> usize {
    if number < counts.len() {
        return counts[number] as usize;
    }
    0
}

/// Adds empty rows until there is one of this number.
fn reach_row(
    alloc: Global,
    counts: &[u32],
    rows: &mut Vec<Row>,
    number: usize,
) -> Result<(), NoMemory>
    ensures there { OnOk result (number < length rows.new.items) }
    ensures same { OnOk result ((n : ℕ) → slice_index_or rows.new.items n [] ≡ slice_index_or rows.old.items n []) }
{
    while rows.len() <= number {
        let room = room_of(counts, rows.len());
        let row = Row::with_room(alloc, room)?;
        rows.push(row)?;
    }
    Ok(())
}

/// Adds a span to the row of a number.
fn add_span(
    alloc: Global,
    counts: &[u32],
    rows: &mut Vec<Row>,
    number: u32,
    span: CellSpan,
) -> Result<(), NoMemory>
    ensures { OnOk result ((n : ℕ) → slice_index_or rows.new.items n []
        ≡ (if nat_eq number n then slice_index_or rows.old.items n [] ++ span ∷ [] else slice_index_or rows.old.items n [])) }
{
    let at = number as usize;
    reach_row(alloc, counts, rows, at)?;
    rows[at].push(span)?;
    Ok(())
}

/// The lines of each ray, whatever their order is.
pub fn rows_of(alloc: Global, grid: &Grid, cells: &[CertCell]) -> Result<Vec<Row>, NoMemory>
    requires { list_all (is_cell_on grid.now) cells.now ≡ true }
    ensures { IfOk result (λ rows. AreRows grid.now cells.now rows.items) }
{
    let counts = counts_of(alloc, grid, cells)?;
    let mut rows = Vec::with_capacity(alloc, counts.len())?;
    for cell in cells {
        let span = span_of(cell, grid);
        add_span(
            alloc,
            counts.as_slice(),
            &mut rows,
            grid.ray_number(&cell.ray),
            span,
        )?;
    }
    Ok(rows)
}
