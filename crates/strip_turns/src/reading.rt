ghost use Rattle.std.specs.Prelude.{◌≡◌, ◌<◌, ◌≤◌, length, IfOk, IfErr};
ghost use Rattle.ray_grid.specs.Lattice.{IsRay, points_of};
ghost use Rattle.ray_grid.specs.Strips.{strip_number, strips_of};
ghost use Rattle.ray_grid.specs.Points.{point_in};
ghost use Rattle.job_model.specs.Points.{left_moves, state_after, totals_after};
ghost use Rattle.job_model.specs.Tasks.{Job};
ghost use Rattle.turn_core.specs.World.{AreStrips};
ghost use Rattle.strip_turns.specs.Passes.{card, IsIdleSeat};
ghost use Rattle.strip_turns.specs.Asks.{Raised, Short, AllRaised, SomeRaised};

use crate::board::Board;
use crate::moves::put;
use crate::raising::raised;
use crate::view::View;
use atomic_table::Seat;
use job_counts::{PointState, Totals};
use ray_grid::Ray;
use std::sync::Wait;
use turn_core::AheadStrip;
use vf_io::NoMemory;

/// The state of a point at a version, to which its strip is raised first.
pub(crate) fn probed<R: Wait>(
    rt: &R,
    board: &Board,
    seat: &mut Seat<Option<AheadStrip>, View>,
    ray: &Ray,
    l: u32,
    version: u32,
) -> Result<PointState, NoMemory>
    requires idle { IsIdleSeat board.now seat.old }
    requires ray { IsRay board.now.plan.grid ray.now }
    requires point { l < points_of board.now.plan.grid ray.now.family }
    requires version { version ≤ length board.now.plan.edits }
    ensures idle { IsIdleSeat board.now seat.new }
    ensures raised { let strip = strip_number board.now.plan.grid ray.now.family ray.now.i in
        IfOk result (λ _. Raised (card board.now) strip version seat.old.me.0 seat.new.me.0) }
    ensures short { let strip = strip_number board.now.plan.grid ray.now.family ray.now.i in
        IfErr result (λ _. Short (card board.now) strip version seat.old.me.0 seat.new.me.0) }
    ensures state { IfOk result (λ state. (job : Job) → AreStrips job (card board.now).strips
        → state ≡ state_after job (left_moves job.plan version) (point_in job.plan.grid ray.now l)) }
{
    let (strip, n) = board.plan.grid().place(ray);
    let (piece, from) = raised(rt, board, seat, strip, version)?;
    let state = piece.state_at(version, n, l);
    put(board, seat, strip, from, from.max(version), piece);
    Ok(state)
}

/// The totals at a version, to which all strips are raised.
pub(crate) fn counted<R: Wait>(
    rt: &R,
    board: &Board,
    seat: &mut Seat<Option<AheadStrip>, View>,
    version: u32,
) -> Result<Totals, NoMemory>
    requires idle { IsIdleSeat board.now seat.old }
    requires version { version ≤ length board.now.plan.edits }
    ensures idle { IsIdleSeat board.now seat.new }
    ensures raised { let strips = length (strips_of board.now.plan.grid) in
        IfOk result (λ _. AllRaised (card board.now) version strips seat.old.me.0 seat.new.me.0) }
    ensures some { let strips = length (strips_of board.now.plan.grid) in
        IfErr result (λ _. SomeRaised (card board.now) version 0 strips seat.old.me.0 seat.new.me.0) }
    ensures totals { IfOk result (λ totals. (job : Job) → AreStrips job (card board.now).strips
        → totals ≡ totals_after job (left_moves job.plan version)) }
{
    let grid = board.plan.grid();
    // The points of the lattice are counted in 64 bits, so no sum over some of them wraps.
    let _points = grid.lattice_len();
    let mut totals = Totals::none();
    for strip in 0..grid.strips() {
        let (piece, from) = raised(rt, board, seat, strip, version)?;
        totals = totals.plus(&piece.counts_at(version));
        put(board, seat, strip, from, from.max(version), piece);
    }
    Ok(totals)
}
