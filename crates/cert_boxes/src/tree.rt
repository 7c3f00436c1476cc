ghost use Rattle.std.specs.Prelude.{◌≡◌, ℕ, ◌+◌, ◌-◌, ◌^◌, ◌<◌, ◌≤◌, IfOk};
ghost use Rattle.cutter_slabs.specs.Rising.{IsRising};
ghost use Rattle.vf_spans.specs.Members.{has};
ghost use Rattle.cert_boxes.specs.Drafts.{AddsCells, IsBoxOn, halvings_left};
ghost use Rattle.cert_boxes.specs.Holding.{are_slabs_excluded};
ghost use Rattle.cert_boxes.specs.Making.{cells_of_box, cut_down, halves_of};

use crate::boxes::excludes_all;
use crate::draft::Draft;
use axis_cells::Sweep;
use bern_form::Slab;
use cert_lines::CertCell;
use ray_grid::Grid;
use vf_io::NoMemory;
use vf_spans::Spans;

/// The box from its first to its last index that is in the set; none where no index of it is. It goes over the set's ranges, of which
/// there are no more than bodies that the ray passes, and takes no memory.
fn cut_down(wanted: &Spans, cell: CertCell) -> Option<CertCell>
    requires order { cell.a ≤ cell.b }
    ensures { result ≡ cut_down (has wanted.now) cell }
{
    let mut first = cell.b;
    let mut end = cell.a;
    for n in 0..wanted.ranges() {
        let range = wanted.range(n);
        let lo = range.0.max(cell.a);
        let hi = range.1.min(cell.b);
        if lo < hi {
            first = first.min(lo);
            end = end.max(hi);
        }
    }
    if first < end {
        return Some(CertCell {
            a: first,
            b: end,
            ..cell
        });
    }
    None
}

/// The halves of a box: along the ray, or in time where it has one index; none where that is so at the depth.
fn halves_of(depth: u32, cell: CertCell) -> Option<(CertCell, CertCell)>
    requires some { cell.a < cell.b }
    requires depth { depth ≤ 10 }
    requires part { cell.k < 2 ^ cell.q }
    ensures { result ≡ halves_of depth cell }
{
    if cell.a + 1 < cell.b {
        let mid = cell.a + (cell.b - cell.a) / 2;
        return Some((CertCell { b: mid, ..cell }, CertCell { a: mid, ..cell }));
    }
    if cell.q < depth {
        let q = cell.q + 1;
        let k = 2 * cell.k;
        return Some((
            CertCell { q, k, ..cell },
            CertCell {
                q,
                k: k + 1,
                ..cell
            },
        ));
    }
    None
}

/// Adds the cells of a box, and answers whether there are any: there are none where one index of the set is left at the depth. A box
/// is cut down to the set's indices first. It is one cell where each slab is excluded on it, and else it has the cells of its halves.
pub fn add_box(
    draft: &mut Draft,
    sweep: &Sweep,
    grid: &Grid,
    slabs: &[Slab],
    depth: u32,
    wanted: &Spans,
    cell: CertCell,
) -> Result<bool, NoMemory>
    requires rising { IsRising slabs.now }
    requires depth { depth ≤ 10 }
    requires cell { IsBoxOn grid.now depth cell }
    ensures { let holds = are_slabs_excluded sweep.now grid.now slabs.now in
        IfOk result (λ whole. (halvings : ℕ) → halvings_left depth cell < halvings
        → AddsCells (cells_of_box (has wanted.now) holds depth halvings cell) draft.old draft.new whole) }
{
    let Some(cut) = cut_down(wanted, cell) else {
        return Ok(true);
    };
    if excludes_all(sweep, grid, slabs, &cut) {
        draft.push(cut)?;
        return Ok(true);
    }
    let Some(halves) = halves_of(depth, cut) else {
        return Ok(false);
    };
    let is_whole = add_box(draft, sweep, grid, slabs, depth, wanted, halves.0)?;
    if !is_whole {
        return Ok(false);
    }
    add_box(draft, sweep, grid, slabs, depth, wanted, halves.1)
}
