ghost use Rattle.std.specs.Prelude.{◌≡◌, ℕ, ◌+◌, ◌<◌, IsTrue, IfOk, MatchResult, None};
ghost use Rattle.std.specs.List.{sum_by};
ghost use Rattle.vf_spans.specs.Members.{count_of, has};
ghost use Rattle.ray_grid.specs.Lattice.{IsRay, points_of};
ghost use Rattle.ray_grid.specs.Points.{point_in};
ghost use Rattle.ray_grid.specs.Strips.{ray_number};
ghost use Rattle.ray_grid.specs.Turns.{IsTurn};
ghost use Rattle.ray_grid.specs.declared.ray.Ray.{Ray};
ghost use Rattle.ray_shapes.specs.Sets.{AreSetsOver};
ghost use Rattle.stock_file.specs.PointSets.{saved_where};
ghost use Rattle.stock_file.specs.Saved.{set_of};
ghost use Rattle.setup_turn.specs.Turned.{EndsTurn, first_outside, in_turned, is_turned_to};
ghost use Rattle.setup_turn.specs.Walk.{IsTurnedUpTo};

use crate::line::turned_line;
use crate::sets::{first_from, room, turned_set};
use ray_grid::{Grid, Ray, Turn};
use std::alloc::Global;
use stock_file::{FIRST_RAY, SavedStock, count_rays, has_three_axes, ray_after};

/// How a turn ends that gives no stock.
#[derive(Clone, Copy)]
pub enum TurnEnd {
    /// The first saved point that has no place in the new grid, in the order of strips, rays and indices of the saved stock.
    Outside { ray: Ray, l: u32 },
    NoMemory,
}

/// Turns a saved stock into a grid of the same pitch and step. Each saved point is a point of the new grid then, on a ray along the axis
/// on which the axis of its old ray lies. It takes time for the rays of the saved stock and for the ranges on them, and not for each point.
///
/// That the sets are those of the rays is so of each saved stock; who has read one knows it.
pub fn turn_stock(
    alloc: Global,
    saved: &SavedStock,
    turn: &Turn,
    grid: &Grid,
) -> Result<SavedStock, TurnEnd>
    requires saved { AreSetsOver saved.now.grid saved.now.sets }
    requires turn { IsTurn turn.now }
    requires pitch { saved.now.grid.pitch ≡ grid.now.pitch }
    requires step { saved.now.grid.step ≡ grid.now.step }
    ensures turned { IfOk result (λ stock. stock ≡ saved_where grid.now (in_turned turn.now saved.now)) }
    // Outside names the first saved point with no place, and exactly where there is one: else there is a stock, or no memory.
    ensures outside { let first = first_outside turn.now saved.now grid.now in
        MatchResult result (λ _. first ≡ None) (EndsTurn saved.now.grid first) }
    // A new point is in the stock exactly where the old one was that is turned to it.
    ensures kept { IfOk result (λ stock. (old new : Ray) (l m : ℕ) → IsRay saved.now.grid old → l < points_of saved.now.grid old.family
        → IsRay grid.now new → m < points_of grid.now new.family
        → IsTrue (is_turned_to turn.now (point_in saved.now.grid old l) (point_in grid.now new m))
        → has (set_of stock new) m ≡ has (set_of saved.now old) l) }
    ensures many { IfOk result (λ stock. sum_by count_of stock.sets ≡ sum_by count_of saved.now.sets) }
{
    let old = saved.grid();
    has_three_axes(&old);
    has_three_axes(grid);
    let count = count_rays(&old);
    let Ok(mut stock) = SavedStock::new(alloc, *grid) else {
        return Err(TurnEnd::NoMemory);
    };
    let mut ray = FIRST_RAY;
    let mut number = 0;
    while number < count {
        turn_ray(alloc, saved, turn, grid, &ray, &mut stock)?;
        ray = ray_after(&old, &ray);
        number += 1;
    }
    Ok(stock)
}

/// Turns the set of one ray of the saved stock, where those of the rays before it are turned.
fn turn_ray(
    alloc: Global,
    saved: &SavedStock,
    turn: &Turn,
    grid: &Grid,
    ray: &Ray,
    stock: &mut SavedStock,
) -> Result<(), TurnEnd>
    requires saved { AreSetsOver saved.now.grid saved.now.sets }
    requires turn { IsTurn turn.now }
    requires pitch { saved.now.grid.pitch ≡ grid.now.pitch }
    requires step { saved.now.grid.step ≡ grid.now.step }
    requires ray { IsRay saved.now.grid ray.now }
    requires before { IsTurnedUpTo turn.now saved.now grid.now (ray_number saved.now.grid ray.now) stock.old }
    ensures { MatchResult result
        (λ _. IsTurnedUpTo turn.now saved.now grid.now (ray_number saved.now.grid ray.now + 1) stock.new)
        (EndsTurn saved.now.grid (first_outside turn.now saved.now grid.now)) }
{
    let old = saved.grid();
    has_three_axes(&old);
    has_three_axes(grid);
    let set = saved.spans(ray);
    if set.ranges() == 0 {
        return Ok(());
    }
    let (first, _) = set.range(0);
    let Some(line) = turned_line(&old, grid, turn, ray, first) else {
        return Err(TurnEnd::Outside {
            ray: *ray,
            l: first,
        });
    };
    let points = grid.points(line.ray.family);
    if let Some(l) = first_from(set, first + room(&line, points)) {
        return Err(TurnEnd::Outside { ray: *ray, l });
    }
    let Ok(moved) = turned_set(alloc, set, first, &line, points) else {
        return Err(TurnEnd::NoMemory);
    };
    stock.put(&line.ray, moved);
    Ok(())
}
