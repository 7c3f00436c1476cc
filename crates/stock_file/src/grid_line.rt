ghost use Rattle.std.specs.Prelude.{◌≡◌, ◌-◌, ◌*◌, ◌/◌, ◌<◌, ◌≤◌, ◌^◌, pos, true, Some, None, slice_index, if◌then◌else◌};
ghost use Rattle.std.specs.Option.{option_map};
ghost use Rattle.space.specs.Vectors.{at};
ghost use Rattle.cert_lines.specs.Words.{spaced_words, words_after};
ghost use Rattle.stock_file.specs.GridNumbers.{numbers_of};
ghost use Rattle.stock_file.specs.GridTests.{counts_in, grid_in_line, grid_named, origin_in, sizes_in};
ghost use Rattle.stock_file.specs.GridTests.{is_axis_of_grid, is_grid, is_pitch};

use crate::numbers::{read_plain, read_signed};
use crate::words::{is_same, split_next, split_word, whole_line};
use ray_grid::Grid;

/// The numbers of a grid line, which may make no grid.
#[derive(Clone, Copy)]
pub(crate) struct GridNumbers {
    pub(crate) origin: [i32; 3],
    pub(crate) pitch: u32,
    pub(crate) step: u32,
    pub(crate) counts: [u32; 3],
}

/// The greatest coordinate, and the greatest pitch.
const METRE: u32 = 1_000_000;

/// The most nodes along an axis.
const MOST_NODES: u32 = 400;

/// The most points of a ray for each node.
const MOST_PER_NODE: u32 = 1_000;

/// The numbers of a piece of a text, where it is a grid line with its line end.
pub(crate) fn read_grid_line(piece: &[u8]) -> Option<GridNumbers>
    ensures { grid_named piece.now ≡ option_map (λ g. numbers_of g) result }
{
    read_grid_words(whole_line(piece)?)
}

fn read_grid_words(text: &[u8]) -> Option<GridNumbers>
    ensures { grid_in_line (spaced_words text.now) ≡ option_map (λ g. numbers_of g) result }
{
    let (verb, after) = split_word(text);
    if !is_same(verb, b"grid") {
        return None;
    }
    let (origin, after) = read_origin(after)?;
    read_sizes(origin, after)
}

/// The three coordinates of the origin, and what follows them.
fn read_origin(after: &[u8]) -> Option<([i32; 3], &[u8])>
    ensures { origin_in (words_after after.now) ≡ option_map (λ cut. (cut.0, words_after cut.1.now)) result }
{
    let (x, after) = split_next(after)?;
    let (y, after) = split_next(after)?;
    let (z, after) = split_next(after)?;
    let x = read_signed(x)?;
    let y = read_signed(y)?;
    let z = read_signed(z)?;
    Some(([x, y, z], after))
}

/// What follows the origin: pitch, step and counts.
fn read_sizes(origin: [i32; 3], after: &[u8]) -> Option<GridNumbers>
    ensures { sizes_in origin (words_after after.now) ≡ option_map (λ g. numbers_of g) result }
{
    let (pitch, after) = split_next(after)?;
    let (step, after) = split_next(after)?;
    let pitch = read_plain(pitch)?;
    let step = read_plain(step)?;
    let counts = read_counts(after)?;
    Some(GridNumbers {
        origin,
        pitch,
        step,
        counts,
    })
}

/// The three counts, which are the last words.
fn read_counts(after: &[u8]) -> Option<[u32; 3]>
    ensures { counts_in (words_after after.now) ≡ option_map (λ counts. counts) result }
{
    let (x, after) = split_next(after)?;
    let (y, after) = split_next(after)?;
    let (z, after) = split_next(after)?;
    let None = split_next(after) else {
        return None;
    };
    let x = read_plain(x)?;
    let y = read_plain(y)?;
    let z = read_plain(z)?;
    Some([x, y, z])
}

/// The grid of the numbers, where they make one.
pub(crate) fn grid_of(numbers: &GridNumbers) -> Option<Grid>
    ensures { result ≡ (if is_grid (numbers_of numbers.now) then Some (numbers_of numbers.now) else None) }
{
    if !is_grid(numbers) {
        return None;
    }
    Some(Grid {
        origin: numbers.origin,
        pitch: numbers.pitch as i32,
        step: numbers.step as i32,
        counts: numbers.counts,
    })
}

fn is_grid(numbers: &GridNumbers) -> bool
    ensures { result ≡ is_grid (numbers_of numbers.now) }
{
    let (origin, counts) = (&numbers.origin, &numbers.counts);
    let (pitch, step) = (numbers.pitch, numbers.step);
    if !is_pitch(pitch, step) {
        return false;
    }
    if !is_axis_at(pitch, step, origin, counts, 0) {
        return false;
    }
    if !is_axis_at(pitch, step, origin, counts, 1) {
        return false;
    }
    is_axis_at(pitch, step, origin, counts, 2)
}

/// Whether a grid may have this pitch and this step.
fn is_pitch(pitch: u32, step: u32) -> bool
    ensures { result ≡ is_pitch (pos pitch) (pos step) }
{
    1 <= pitch
        && pitch <= METRE
        && 1 <= step
        && step <= pitch
        && pitch % step == 0
        && pitch / step <= MOST_PER_NODE
}

/// Whether a grid of this pitch and step may have the axis of this number.
fn is_axis_at(pitch: u32, step: u32, origin: &[i32; 3], counts: &[u32; 3], axis: usize) -> bool
    requires pitch { is_pitch (pos pitch) (pos step) ≡ true }
    requires axis { axis < 3 }
    ensures { result ≡ is_axis_of_grid (pos pitch) (pos step) (at origin.now axis) (slice_index counts.now axis) }
{
    is_axis(pitch, step, origin[axis], counts[axis])
}

/// Whether a grid of this pitch and step may have an axis.
fn is_axis(pitch: u32, step: u32, origin: i32, nodes: u32) -> bool
    requires { is_pitch (pos pitch) (pos step) ≡ true }
    ensures { result ≡ is_axis_of_grid (pos pitch) (pos step) origin nodes }
{
    if origin.unsigned_abs() > METRE {
        return false;
    }
    if nodes == 0 {
        return false;
    }
    if nodes > MOST_NODES {
        return false;
    }
    i64::from(origin) + length_of(pitch, step, nodes) as i64 <= i64::from(METRE)
}

/// How far the last point of a ray lies from its first one.
fn length_of(pitch: u32, step: u32, nodes: u32) -> u64
    requires pitch { is_pitch (pos pitch) (pos step) ≡ true }
    requires nodes { nodes ≤ 400 }
    ensures value { result ≡ (nodes * (pitch / step) - 1) * step }
    ensures small { result ≤ 10 ^ 12 }
{
    let points = u64::from(nodes) * u64::from(pitch / step);
    points.saturating_sub(1) * u64::from(step)
}
