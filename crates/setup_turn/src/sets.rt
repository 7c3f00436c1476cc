ghost use Rattle.std.specs.Prelude.{◌≡◌, ◌+◌, ◌-◌, ◌<◌, ◌≤◌, length, IfOk};
ghost use Rattle.vf_spans.specs.Members.{has};
ghost use Rattle.setup_turn.specs.Moved.{IsFirstFrom, IsMovedSet, IsReversed, IsTurnedSet, LiesWithin};
ghost use Rattle.setup_turn.specs.Places.{room_of};

use crate::line::TurnedLine;
use std::alloc::Global;
use vf_io::NoMemory;
use vf_spans::Spans;

/// The first index of a set from a number on.
pub(crate) fn first_from(set: &Spans, from: u32) -> Option<u32>
    ensures { IsFirstFrom set.now from result }
{
    for n in 0..set.ranges() {
        let (lo, hi) = set.range(n);
        if hi > from {
            return Some(lo.max(from));
        }
    }
    None
}

/// How many points of an old ray, from the first one on, have a place on the new ray.
pub(crate) fn room(line: &TurnedLine, points: u32) -> u32
    requires points { points ≤ 400000 }
    requires place { line.now.l < points }
    ensures room { result ≡ room_of line.now.reversed line.now.l points }
    ensures few { result ≤ 400000 }
{
    if line.reversed {
        line.l + 1
    } else {
        points - line.l
    }
}

/// The set of an old ray on its new one, below a bound. Index `first` comes to the line's.
pub(crate) fn turned_set(
    alloc: Global,
    set: &Spans,
    first: u32,
    line: &TurnedLine,
    bound: u32,
) -> Result<Spans, NoMemory>
    requires bound { bound ≤ 400000 }
    requires place { line.now.l < bound }
    requires within { LiesWithin set.now first (first + room_of line.now.reversed line.now.l bound) }
    requires few { length set.now ≤ 400000 }
    ensures bound { IfOk result (λ moved. length moved ≡ bound) }
    ensures turned { IfOk result (IsTurnedSet line.now.reversed set.now first line.now.l) }
{
    if line.reversed {
        reversed_set(alloc, set, first, line.l, bound)
    } else {
        moved_set(alloc, set, first, line.l, bound)
    }
}

/// A set that is moved along: index `first` comes to `to`, and the others as far from it as before.
fn moved_set(alloc: Global, set: &Spans, first: u32, to: u32, bound: u32) -> Result<Spans, NoMemory>
    requires bound { bound ≤ 400000 }
    requires place { to < bound }
    requires within { LiesWithin set.now first (first + (bound - to)) }
    ensures bound { IfOk result (λ moved. length moved ≡ bound) }
    ensures moved { IfOk result (IsMovedSet set.now first to) }
{
    let mut moved = Spans::new(alloc, bound);
    for n in 0..set.ranges() {
        let (lo, hi) = set.range(n);
        moved.push_range(to + (lo - first), to + (hi - first))?;
    }
    Ok(moved)
}

/// A set that is reversed: index `first` comes to `to`, and those after it before that.
fn reversed_set(
    alloc: Global,
    set: &Spans,
    first: u32,
    to: u32,
    bound: u32,
) -> Result<Spans, NoMemory>
    requires bound { bound ≤ 400000 }
    requires place { to < bound }
    requires within { LiesWithin set.now first (first + (to + 1)) }
    requires few { length set.now ≤ 400000 }
    ensures bound { IfOk result (λ moved. length moved ≡ bound) }
    ensures reversed { IfOk result (IsReversed set.now first to) }
{
    let mut moved = Spans::new(alloc, bound);
    let count = set.ranges();
    for n in 0..count {
        let (lo, hi) = set.range(count - 1 - n);
        moved.push_range(to + 1 - (hi - first), to + 1 - (lo - first))?;
    }
    Ok(moved)
}
