ghost use Rattle.std.specs.Prelude.{◌≡◌, ◌+◌, ◌*◌, ◌<◌, ◌≤◌, ◌^◌, ◌≤ℤ◌, ◌*ℤ◌, ℕ, pos, unsigned_abs};
ghost use Rattle.space.specs.Ranges.{IsWithin, vector_limit};
ghost use Rattle.space.specs.Sweeps.{between};
ghost use Rattle.space.specs.Vectors.{at, dot};
ghost use Rattle.sweep_boxes.specs.Intervals.{between_ends};
ghost use Rattle.sweep_boxes.specs.Limits.{most_level, place_limit};
ghost use Rattle.sweep_boxes.specs.Made.{IsSweepInterval};

use crate::sweep_interval::SweepInterval;
use crate::weight::weighted;
use axis_cells::Sweep;
use space::{difference, dot};

/// The place between two ends along an axis at the time `time` / `whole`, times `whole`.
#[inline]
fn place(time: u32, whole: u32, from: &[i32; 3], to: &[i32; 3], i: usize) -> i128
    requires i { i < 3 }
    requires whole { whole ≤ 128 }
    requires time { time ≤ whole }
    requires from { unsigned_abs (at from.now i) ≤ place_limit }
    requires to { unsigned_abs (at to.now i) ≤ place_limit }
    ensures value { result ≡ between (pos time) (pos whole) (at from.now i) (at to.now i) }
    ensures small { unsigned_abs result ≤ 128 * place_limit }
{
    weighted(whole - time, from[i]) + weighted(time, to[i])
}

/// The same along each axis.
fn places(time: u32, whole: u32, from: &[i32; 3], to: &[i32; 3]) -> [i128; 3]
    requires whole { whole ≤ 128 }
    requires time { time ≤ whole }
    requires from { IsWithin place_limit from.now }
    requires to { IsWithin place_limit to.now }
    ensures value { result ≡ between_ends from.now to.now (pos time) (pos whole) }
    ensures small { IsWithin (128 * place_limit) result }
{
    [
        place(time, whole, from, to, 0),
        place(time, whole, from, to, 1),
        place(time, whole, from, to, 2),
    ]
}

/// The greater square of two vectors.
fn longer(first: &[i128; 3], last: &[i128; 3]) -> i128
    requires first { IsWithin vector_limit first.now }
    requires last { IsWithin vector_limit last.now }
    ensures first { dot first.now first.now ≤ℤ result }
    ensures last { dot last.now last.now ≤ℤ result }
    ensures some { pos 0 ≤ℤ result }
    ensures small { result ≤ℤ pos (3 * (vector_limit * vector_limit)) }
{
    let first = dot(first, first);
    let last = dot(last, last);
    if first < last { last } else { first }
}

/// Part `cell` of 2^`level` of a move.
pub fn interval_of(sweep: &Sweep, level: u32, cell: u32) -> SweepInterval
    requires level { level ≤ most_level }
    requires cell { cell < 2 ^ level }
    ensures { IsSweepInterval result sweep.now cell (2 ^ level) }
{
    let parts = parts_of(level);
    let first = places(cell, parts, &sweep.axis_from, &sweep.axis_to);
    let last = places(cell + 1, parts, &sweep.axis_from, &sweep.axis_to);
    SweepInterval {
        scale: 2 * parts,
        tip: places(2 * cell + 1, 2 * parts, &sweep.from, &sweep.to),
        axis: places(2 * cell + 1, 2 * parts, &sweep.axis_from, &sweep.axis_to),
        offset_change: difference(&sweep.from, &sweep.to),
        axis_change: difference(&sweep.axis_to, &sweep.axis_from),
        longest: longer(&first, &last),
    }
}

/// How many parts a level has: 2^level.
#[inline]
pub fn parts_of(level: u32) -> u32
    requires { level ≤ most_level }
    ensures parts { result ≡ 2 ^ level }
    ensures few { result ≤ 64 }
{
    1 << level
}
