ghost use Rattle.std.specs.Prelude.{ℕ, ◌^◌, ◌<◌, ◌≤◌, All, unsigned_abs};
ghost use Rattle.std.specs.Option.{MatchOption};
ghost use Rattle.cutter_slabs.specs.Rising.{IsRising};
ghost use Rattle.ray_grid.specs.Lattice.{IsRay, point_of, points_of};
ghost use Rattle.ray_runs.specs.Between.{AreClear};
ghost use Rattle.ray_runs.specs.Missed.{IsNoWider};
ghost use Rattle.ray_runs.specs.Open.{IsOpenOnly};

use crate::searched::Searched;
use axis_cells::{Sweep, cells_of, short_scaled_square};
use bern_form::Slab;
use cutter_slabs::Stacks;
use ray_grid::{Grid, Ray};

/// A part of a move: 2^`levels` cells, from the sample `first` on.
#[derive(Clone, Copy)]
pub struct OpenStretch {
    pub first: u32,
    pub levels: u32,
}

/// How often the time is halved at most, down to a part in 256 of the move. Fewer halves leave more points to be marked one by one, on
/// longer stretches; more of them settle hardly any more.
const HALVINGS: u32 = 8;

/// Moves of more than 2^`CUT_FROM` cells are cut once before the halves. Any number is right, it only matters for speed: the halves of a
/// shorter move soon come to an end, and the cut would cost more than it saves.
const CUT_FROM: u32 = 4;

/// The diameter of the widest of the slabs, which is the highest.
fn widest(slabs: &[Slab]) -> i32
    requires { IsRising slabs.now }
    ensures small { unsigned_abs result ≤ 300000 }
    ensures no_wider { All (IsNoWider result) slabs.now }
{
    if slabs.is_empty() {
        return 0;
    }
    let highest = &slabs[slabs.len() - 1];
    highest.dia
}

/// The part of a move outside of which all points from one index to another are clear of it. Where there is none they are clear: none
/// is sure, and none is possible. That the part is as short as it could be isn't said. It is looked for down to a part in 256 of
/// the move.
pub fn open_stretch(
    sweep: &Sweep,
    stacks: &Stacks,
    depth: u32,
    grid: &Grid,
    ray: &Ray,
    from: u32,
    to: u32,
) -> Option<OpenStretch>
    requires ray { IsRay grid.now ray.now }
    requires depth { depth ≤ 10 }
    requires order { from ≤ to }
    requires within { to < points_of grid.now ray.now.family }
    ensures { MatchOption result (AreClear stacks.now sweep.now (point_of grid.now ray.now) (2 ^ depth) from to)
        (λ s. IsOpenOnly s stacks.now sweep.now (point_of grid.now ray.now) (2 ^ depth) from to) }
{
    // Reading a field of the sweep gives the prover its invariant. What is sure is possible, by the inner stack.
    let _valid = &sweep.from;
    let _inner = stacks.inner();
    let scale = cells_of(depth);
    let square = short_scaled_square(scale, widest(stacks.outer()));
    let searched = Searched {
        sweep,
        grid,
        ray,
        from,
        to,
        scale,
        square,
        stop: depth.saturating_sub(HALVINGS),
    };
    let start = searched.pair_at(0);
    let end = searched.pair_at(scale);
    if CUT_FROM < depth && searched.are_clear_by_cut(&start, &end) {
        return None;
    }
    searched.open_in(&start, &end, 0, depth)
}
