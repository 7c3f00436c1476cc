ghost use Rattle.std.specs.Prelude.{◌≡◌, ℕ, ◌+◌, ◌^◌, ◌<◌, ◌≤◌, ◌||◌, not, length, max, min, take, drop, IfSome, IfOk, OnOk};
ghost use Rattle.std.specs.List.{filter, list_any};
ghost use Rattle.vf_spans.specs.Members.{has, in_range};
ghost use Rattle.cert_boxes.specs.Rows.{AreAlike, covers_from, has_index, is_throughout};

use crate::span::CellSpan;
use axis_cells::cells_of;
use std::alloc::Global;
use vf_io::NoMemory;
use vf_spans::Spans;

/// Moves the spans that have all of the finest cells from one on and below another in front of the rest, and gives how many these
/// are. It takes no memory, since a certificate may have millions of lines on one ray.
fn gather(spans: &mut [CellSpan], from: u16, to: u16) -> usize
    ensures within { result ≤ length spans.new }
    ensures front { AreAlike (take result spans.new) (filter (is_throughout from to) spans.old) }
    ensures back { AreAlike (drop result spans.new) (filter (λ span. not (is_throughout from to span)) spans.old) }
    ensures alike { AreAlike spans.new spans.old }
{
    let mut front = 0;
    let mut back = spans.len();
    while front < back {
        if spans[front].is_throughout(from, to) {
            front += 1;
            continue;
        }
        back -= 1;
        spans.swap(front, back);
    }
    front
}

/// The lesser of two numbers.
fn least(x: u32, y: u32) -> u32
    ensures { result ≡ min x y }
{
    if x < y {
        return x;
    }
    y
}

/// The greater of two numbers.
fn greatest(x: u32, y: u32) -> u32
    ensures { result ≡ max x y }
{
    if x < y {
        return y;
    }
    x
}

/// The indices of a range that are below a bound.
fn range_below(alloc: Global, range: (u32, u32), bound: u32) -> Result<Spans, NoMemory>
    ensures bound { IfOk result (λ set. length set ≡ bound) }
    ensures exact { IfOk result (λ set. (l : ℕ) → l < bound → has set l ≡ in_range l range) }
{
    let end = least(range.1, bound);
    let mut set = Spans::new(alloc, bound);
    if end <= range.0 {
        return Ok(set);
    }
    set.push_range(range.0, end)?;
    Ok(set)
}

/// The range of both, where they meet: they overlap, or one begins where the other ends.
fn joined_with(range: (u32, u32), span: &CellSpan) -> Option<(u32, u32)>
    ensures { IfSome result (λ both. (l : ℕ) → in_range l both ≡ (in_range l range || has_index l span.now)) }
{
    if range.1 < span.a {
        return None;
    }
    if span.b < range.0 {
        return None;
    }
    Some((least(range.0, span.a), greatest(range.1, span.b)))
}

/// The range that the spans make up together, where each one meets what those before it make up: nearly all lines of a ray are so.
fn joined(spans: &[CellSpan]) -> Option<(u32, u32)>
    ensures { IfSome result (λ range. (l : ℕ) → in_range l range ≡ list_any (has_index l) spans.now) }
{
    if spans.is_empty() {
        return None;
    }
    let mut range = (spans[0].a, spans[0].b);
    for span in spans {
        match joined_with(range, span) {
            Some(both) => range = both,
            None => return None,
        }
    }
    Some(range)
}

/// The indices of all of the spans, below a bound: those of the first half of the list and those of the last.
fn union_of(alloc: Global, spans: &[CellSpan], bound: u32) -> Result<Spans, NoMemory>
    ensures bound { IfOk result (λ set. length set ≡ bound) }
    ensures exact { IfOk result (λ set. (l : ℕ) → l < bound → has set l ≡ list_any (has_index l) spans.now) }
{
    if spans.is_empty() {
        return Ok(Spans::new(alloc, bound));
    }
    if spans.len() == 1 {
        return range_below(alloc, (spans[0].a, spans[0].b), bound);
    }
    match joined(spans) {
        Some(range) => return range_below(alloc, range, bound),
        None => {}
    }
    let (front, back) = spans.split_at(spans.len() / 2);
    let first = union_of(alloc, front, bound)?;
    let last = union_of(alloc, back, bound)?;
    let set = first.union(&last)?;
    Ok(set)
}

/// The indices below a bound that some span has at each of the 2^`halvings` finest cells from one on. The spans' order changes.
#[cycle(cover)]
pub fn cover_of(
    alloc: Global,
    spans: &mut [CellSpan],
    halvings: u32,
    from: u16,
    bound: u32,
) -> Result<Spans, NoMemory>
    requires halvings { halvings ≤ 10 }
    requires within { from + 2 ^ halvings ≤ 1024 }
    ensures bound { IfOk result (λ set. length set ≡ bound) }
    ensures exact { IfOk result (λ set. (l : ℕ) → l < bound → has set l ≡ covers_from spans.old l from (2 ^ halvings)) }
    ensures alike { OnOk result (AreAlike spans.new spans.old) }
{
    let to = from + cells_of(halvings) as u16;
    // A span that has some of the cells from x on and below y has all from y - 1 on and below x + 1.
    let count = gather(spans, to - 1, from + 1);
    let (some, _) = spans.split_at_mut(count);
    let set = cover_by(alloc, some, halvings, from, bound)?;
    Ok(set)
}

/// The same: the indices of the spans that have all of these cells, and those that the others cover in the first half of the cells
/// and in the last.
#[cycle(cover)]
fn cover_by(
    alloc: Global,
    spans: &mut [CellSpan],
    halvings: u32,
    from: u16,
    bound: u32,
) -> Result<Spans, NoMemory>
    requires halvings { halvings ≤ 10 }
    requires within { from + 2 ^ halvings ≤ 1024 }
    ensures bound { IfOk result (λ set. length set ≡ bound) }
    ensures exact { IfOk result (λ set. (l : ℕ) → l < bound → has set l ≡ covers_from spans.old l from (2 ^ halvings)) }
    ensures alike { OnOk result (AreAlike spans.new spans.old) }
{
    if spans.is_empty() {
        return Ok(Spans::new(alloc, bound));
    }
    let many = cells_of(halvings) as u16;
    let count = gather(spans, from, from + many);
    let (all, rest) = spans.split_at_mut(count);
    let whole = union_of(alloc, all, bound)?;
    if rest.is_empty() {
        return Ok(whole);
    }
    if halvings == 0 {
        return Ok(whole);
    }
    let first = cover_of(alloc, rest, halvings - 1, from, bound)?;
    let last = cover_of(alloc, rest, halvings - 1, from + many / 2, bound)?;
    let both = first.meet(&last)?;
    let set = whole.union(&both)?;
    Ok(set)
}
