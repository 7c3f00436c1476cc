ghost use Rattle.std.specs.Prelude.{◌≡◌, ℕ, ◌<◌, IfOk, length};
ghost use Rattle.vf_spans.specs.Members.{has};
ghost use Rattle.box_bisect.specs.Between.{is_removed_mark};
ghost use Rattle.box_bisect.specs.RayMarks.{is_possible_mark, mark_at};

use crate::joined::is_removed;
use axis_cells::Mark;
use std::alloc::Global;
use vf_io::NoMemory;
use vf_spans::Spans;

/// Whether a mark is Possible or Removed.
#[inline]
fn is_possible(mark: Mark) -> bool
    ensures { result ≡ is_possible_mark mark }
{
    match mark {
        Mark::Removed => true,
        Mark::Possible => true,
        Mark::Clear => false,
    }
}

/// The indices whose mark is Removed.
pub fn sure_of(alloc: Global, marks: &[Mark]) -> Result<Spans, NoMemory>
    requires { length marks.now < 4294967296 }
    ensures bound { IfOk result (λ set. length set ≡ length marks.now) }
    ensures flags { IfOk result (λ set. (l : ℕ) → has set l ≡ is_removed_mark (mark_at marks.now l)) }
{
    let mut set = Spans::new(alloc, marks.len() as u32);
    for l in 0..marks.len() {
        if !is_removed(marks[l]) {
            continue;
        }
        set.push(l as u32)?;
    }
    Ok(set)
}

/// The indices whose mark is Possible or Removed.
pub fn possible_of(alloc: Global, marks: &[Mark]) -> Result<Spans, NoMemory>
    requires { length marks.now < 4294967296 }
    ensures bound { IfOk result (λ set. length set ≡ length marks.now) }
    ensures flags { IfOk result (λ set. (l : ℕ) → has set l ≡ is_possible_mark (mark_at marks.now l)) }
{
    let mut set = Spans::new(alloc, marks.len() as u32);
    for l in 0..marks.len() {
        if !is_possible(marks[l]) {
            continue;
        }
        set.push(l as u32)?;
    }
    Ok(set)
}
