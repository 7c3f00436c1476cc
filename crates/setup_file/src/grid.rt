ghost use Rattle.std.specs.Prelude.{◌≡◌, ◌<◌, pos, neg_ℤ, ◌≤ℤ◌, Ok, Err, OnOk, IfOk, true, MatchResult};
ghost use Rattle.space.specs.Vectors.{at};
ghost use Rattle.space.specs.Ranges.{IsBetween, metre};
ghost use Rattle.ray_grid.specs.Ranges.{IsGrid, most_nodes};
ghost use Rattle.toml.specs.View.{table_view};
ghost use Rattle.setup_file.specs.Grids.{AreCoordinates, CountsFit, axes, count_along, divides_pitch};
ghost use Rattle.setup_file.specs.Grids.{grid_from, is_count, last_point, points_a_node};
ghost use Rattle.setup_file.specs.Reads.{each};
ghost use Rattle.setup_file.specs.Tables.{grid_of};

use crate::read::{METRE, all_ranged, number_at, numbers_at, only_if};
use ray_grid::Grid;
use setup_keys::{KeyName, SetupFault};
use toml::Table;

/// The most nodes along an axis, and the most points of a ray for each node.
const MOST_NODES: i64 = 400;

const MOST_PER_NODE: u64 = 1000;

/// The grid of its table.
#[tactic(auto, unfolding(crate::specs::Tables::grid_of))]
pub(crate) fn read_grid(table: &Table) -> Result<Grid, SetupFault>
    ensures grid { MatchResult result (λ grid. grid_of (table_view table.now) ≡ Ok grid)
        (λ fault. grid_of (table_view table.now) ≡ Err fault) }
    ensures valid { IfOk result IsGrid }
{
    let origin = numbers_at::<3>(table, KeyName::GridOrigin)?;
    all_ranged(&origin, KeyName::GridOrigin, -METRE, METRE)?;
    let pitch = number_at(table, KeyName::GridPitch, 1, METRE)?;
    let step = number_at(table, KeyName::GridStep, 1, pitch)?;
    only_if(divides_pitch(pitch, step), KeyName::GridStep, step)?;
    let counts = numbers_at::<3>(table, KeyName::GridCounts)?;
    all_counts(&origin, pitch, step, &counts)?;
    Ok(grid_with(&origin, pitch, step, &counts))
}

/// How many points a ray has for each node.
fn points_a_node(pitch: i64, step: i64) -> u64
    requires { pos 1 ≤ℤ step }
    ensures { result ≡ points_a_node pitch step }
{
    pitch.unsigned_abs() / step.unsigned_abs()
}

/// Whether the step divides the pitch, into few enough.
fn divides_pitch(pitch: i64, step: i64) -> bool
    requires { pos 1 ≤ℤ step }
    ensures { result ≡ divides_pitch pitch step }
{
    pitch.unsigned_abs() % step.unsigned_abs() == 0 && points_a_node(pitch, step) <= MOST_PER_NODE
}

/// The last point of a ray along an axis that has `count` nodes.
fn last_point(origin: i64, pitch: i64, step: i64, count: i64) -> i64
    requires origin { IsBetween (neg_ℤ (pos metre)) (pos metre) origin }
    requires pitch { IsBetween (pos 1) (pos metre) pitch }
    requires step { IsBetween (pos 1) pitch step }
    requires divides { divides_pitch pitch step ≡ true }
    requires count { IsBetween (pos 1) (pos most_nodes) count }
    ensures { result ≡ last_point origin pitch step count }
{
    let points = count.unsigned_abs() * points_a_node(pitch, step);
    origin + ((points - 1) * step.unsigned_abs()) as i64
}

/// Whether an axis may have `count` nodes.
fn is_count(origin: i64, pitch: i64, step: i64, count: i64) -> bool
    requires origin { IsBetween (neg_ℤ (pos metre)) (pos metre) origin }
    requires pitch { IsBetween (pos 1) (pos metre) pitch }
    requires step { IsBetween (pos 1) pitch step }
    requires divides { divides_pitch pitch step ≡ true }
    ensures { result ≡ is_count origin pitch step count }
{
    1 <= count && count <= MOST_NODES && last_point(origin, pitch, step, count) <= METRE
}

/// The first number of nodes that its axis may not have is reported, where there is one.
fn all_counts(origin: &[i64; 3], pitch: i64, step: i64, counts: &[i64; 3]) -> Result<(), SetupFault>
    requires origin { AreCoordinates origin.now }
    requires pitch { IsBetween (pos 1) (pos metre) pitch }
    requires step { IsBetween (pos 1) pitch step }
    requires divides { divides_pitch pitch step ≡ true }
    ensures { MatchResult result (λ _. CountsFit origin.now pitch step counts.now)
        (λ fault. each (count_along origin.now pitch step counts.now) axes ≡ Err fault) }
{
    count_along(origin, pitch, step, counts, 0)?;
    count_along(origin, pitch, step, counts, 1)?;
    count_along(origin, pitch, step, counts, 2)?;
    Ok(())
}

/// The number of nodes along an axis, where it may have that many.
fn count_along(
    origin: &[i64; 3],
    pitch: i64,
    step: i64,
    counts: &[i64; 3],
    axis: usize,
) -> Result<i64, SetupFault>
    requires axis { axis < 3 }
    requires origin { IsBetween (neg_ℤ (pos metre)) (pos metre) (at origin.now axis) }
    requires pitch { IsBetween (pos 1) (pos metre) pitch }
    requires step { IsBetween (pos 1) pitch step }
    requires divides { divides_pitch pitch step ≡ true }
    ensures count { result ≡ count_along origin.now pitch step counts.now axis }
    ensures holds { OnOk result (is_count (at origin.now axis) pitch step (at counts.now axis) ≡ true) }
{
    let count = counts[axis];
    only_if(
        is_count(origin[axis], pitch, step, count),
        KeyName::GridCounts,
        count,
    )
}

/// The grid of numbers that make one.
fn grid_with(origin: &[i64; 3], pitch: i64, step: i64, counts: &[i64; 3]) -> Grid
    requires origin { AreCoordinates origin.now }
    requires pitch { IsBetween (pos 1) (pos metre) pitch }
    requires step { IsBetween (pos 1) pitch step }
    requires divides { divides_pitch pitch step ≡ true }
    requires counts { CountsFit origin.now pitch step counts.now }
    ensures grid { result ≡ grid_from origin.now pitch step counts.now }
    ensures valid { IsGrid result }
{
    Grid {
        origin: [origin[0] as i32, origin[1] as i32, origin[2] as i32],
        pitch: pitch as i32,
        step: step as i32,
        counts: [counts[0] as u32, counts[1] as u32, counts[2] as u32],
    }
}
