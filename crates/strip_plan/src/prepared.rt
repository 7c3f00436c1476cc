ghost use Rattle.std.specs.Prelude.{◌≡◌, ℕ, ◌<◌, ◌≤◌, Some, ◌++◌, All, IfOk, length, slice_get};
ghost use Rattle.std.specs.Thread.{IsSync};
ghost use Rattle.edit_plan.specs.Edits.{AppliesBelow};
ghost use Rattle.strip_plan.specs.Cylinders.{HasCylinders};
ghost use Rattle.strip_plan.specs.Parts.{AreHalves, AreStacksOf, AreTablesFor, AreWindowsOf};
ghost use Rattle.strip_plan.specs.ReadyMoves.{HasReadyMoves};

use crate::boxes::{Boxes, boxes_of};
use crate::cutters::Cutters;
use crate::cylinders::cylinders_of;
use crate::index_box::IndexBox;
use crate::plan_move::PlanMove;
use crate::ready_moves::ready_moves_of;
use crate::untouched::groups_of;
use edit_plan::Edit;
use ray_grid::Grid;
use std::alloc::Global;
use std::thread::{Threads, join};
use sweep_boxes::BoundingCylinder;
use vf_io::NoMemory;
use wanted_marks::ReadyMove;

/// Which strips moves enter: the boxes of the moves, and those of the groups of edits.
#[derive(Drop)]
pub struct StripWindows {
    pub(crate) boxes: Boxes,
    pub(crate) groups: Vec<Option<IndexBox>>,
}

/// What the marks of moves are made by: the cylinders of the moves, and what is computed of each once, that of the first moves in one
/// list and that of the rest in another.
#[derive(Drop)]
pub struct MoveTables {
    pub(crate) cylinders: Vec<BoundingCylinder>,
    pub(crate) early: Vec<ReadyMove>,
    pub(crate) late: Vec<ReadyMove>,
}

/// What is computed of a plan's moves and edits, once for all strips.
#[derive(Drop)]
pub struct Prepared {
    pub(crate) windows: StripWindows,
    pub(crate) tables: MoveTables,
}

impl MoveTables {
    /// What is computed of the move with a number, for its marks.
    #[inline]
    pub(crate) fn ready(&self, number: usize) -> &ReadyMove
        requires { number < length (self.now.early.items ++ self.now.late.items) }
        ensures { slice_get (self.now.early.items ++ self.now.late.items) number ≡ Some result.now }
    {
        let early = self.early.len();
        if number < early {
            return &self.early[number];
        }
        &self.late[number - early]
    }
}

/// The boxes of moves, and those of the groups of edits. Fails only when out of memory.
pub(crate) fn strip_windows_of(
    alloc: Global,
    grid: &Grid,
    depth: u32,
    moves: &[PlanMove],
    cutters: &Cutters,
    edits: &[Edit],
) -> Result<StripWindows, NoMemory>
    requires shallow { depth ≤ 10 }
    requires stacks { AreStacksOf moves.now cutters.now }
    requires named { All (AppliesBelow (length moves.now)) edits.now }
    ensures { IfOk result (AreWindowsOf grid.now cutters.now.slabs depth moves.now edits.now) }
{
    let boxes = boxes_of(alloc, grid, depth, moves, cutters)?;
    let groups = groups_of(alloc, &boxes.hulls, edits)?;
    Ok(StripWindows { boxes, groups })
}

/// The cylinders of moves, and what is computed of each for its marks, all in the first list. Fails only when out of memory.
pub(crate) fn move_tables_of(
    alloc: Global,
    grid: &Grid,
    depth: u32,
    moves: &[PlanMove],
    cutters: &Cutters,
) -> Result<MoveTables, NoMemory>
    requires shallow { depth ≤ 10 }
    requires stacks { AreStacksOf moves.now cutters.now }
    ensures { IfOk result (AreTablesFor grid.now cutters.now.slabs depth moves.now) }
{
    let cylinders = cylinders_of(alloc, grid, moves, cutters)?;
    let early = ready_moves_of(alloc, grid, depth, moves, cutters, 0, moves.len())?;
    Ok(MoveTables {
        cylinders,
        early,
        late: Vec::new(alloc),
    })
}

/// What is computed of each move for its marks, in two halves, both at once: that of the first moves in a thread of its own where one
/// can be made.
fn halves_at_once<R: Threads + Sync>(
    rt: &R,
    alloc: Global,
    grid: &Grid,
    depth: u32,
    moves: &[PlanMove],
    cutters: &Cutters,
) -> Result<(Vec<ReadyMove>, Vec<ReadyMove>), NoMemory>
    requires shallow { depth ≤ 10 }
    requires stacks { AreStacksOf moves.now cutters.now }
    ensures { IfOk result (AreHalves cutters.now.slabs depth moves.now) }
{
    let half = moves.len() / 2;
    let front = move || -> Result<Vec<ReadyMove>, NoMemory>
        requires { (depth ≤ 10) × AreStacksOf moves.now cutters.now × (half ≤ length moves.now) }
        ensures { IfOk result (λ made. HasReadyMoves cutters.entry.now.slabs depth moves.entry.now 0 half made.items) }
    { ready_moves_of(alloc, grid, depth, moves, cutters, 0, half) };
    let back = move || -> Result<Vec<ReadyMove>, NoMemory>
        requires { (depth ≤ 10) × AreStacksOf moves.now cutters.now × (half ≤ length moves.now) }
        ensures { IfOk result (λ made. HasReadyMoves cutters.entry.now.slabs depth moves.entry.now half (length moves.entry.now)
            made.items) }
    { ready_moves_of(alloc, grid, depth, moves, cutters, half, moves.len()) };
    let (early, late) = join(rt, front, back);
    let early = early?;
    let late = late?;
    Ok((early, late))
}

/// The same by `workers` workers: in two halves where there are four or more, and else all of it in the first list.
fn halves_by<R: Threads + Sync>(
    rt: &R,
    alloc: Global,
    grid: &Grid,
    depth: u32,
    moves: &[PlanMove],
    cutters: &Cutters,
    workers: u32,
) -> Result<(Vec<ReadyMove>, Vec<ReadyMove>), NoMemory>
    requires shallow { depth ≤ 10 }
    requires stacks { AreStacksOf moves.now cutters.now }
    ensures { IfOk result (AreHalves cutters.now.slabs depth moves.now) }
{
    if workers < 4 {
        let early = ready_moves_of(alloc, grid, depth, moves, cutters, 0, moves.len())?;
        return Ok((early, Vec::new(alloc)));
    }
    halves_at_once(rt, alloc, grid, depth, moves, cutters)
}

/// The cylinders, and what is computed of each move, both at once: the cylinders in a thread of their own where one can be made.
fn move_tables_at_once<R: Threads + Sync>(
    rt: &R,
    alloc: Global,
    grid: &Grid,
    depth: u32,
    moves: &[PlanMove],
    cutters: &Cutters,
    workers: u32,
) -> Result<MoveTables, NoMemory>
    requires shallow { depth ≤ 10 }
    requires stacks { AreStacksOf moves.now cutters.now }
    ensures { IfOk result (AreTablesFor grid.now cutters.now.slabs depth moves.now) }
{
    let front = move || -> Result<Vec<BoundingCylinder>, NoMemory>
        requires { AreStacksOf moves.now cutters.now }
        ensures { (depth : ℕ) → IfOk result (λ made. HasCylinders grid.entry.now cutters.entry.now.slabs depth moves.entry.now made.items
            (length moves.entry.now)) }
    { cylinders_of(alloc, grid, moves, cutters) };
    let back = move || -> Result<(Vec<ReadyMove>, Vec<ReadyMove>), NoMemory>
        requires { IsSync R.row × (depth ≤ 10) × AreStacksOf moves.now cutters.now }
        ensures { IfOk result (AreHalves cutters.entry.now.slabs depth moves.entry.now) }
    { halves_by(rt, alloc, grid, depth, moves, cutters, workers) };
    let (cylinders, halves) = join(rt, front, back);
    let cylinders = cylinders?;
    let (early, late) = halves?;
    Ok(MoveTables {
        cylinders,
        early,
        late,
    })
}

/// The same by `workers` workers: two threads have a part of it each where there are three, and three where there are more.
fn move_tables_by<R: Threads + Sync>(
    rt: &R,
    alloc: Global,
    grid: &Grid,
    depth: u32,
    moves: &[PlanMove],
    cutters: &Cutters,
    workers: u32,
) -> Result<MoveTables, NoMemory>
    requires shallow { depth ≤ 10 }
    requires stacks { AreStacksOf moves.now cutters.now }
    ensures { IfOk result (AreTablesFor grid.now cutters.now.slabs depth moves.now) }
{
    if workers < 3 {
        return move_tables_of(alloc, grid, depth, moves, cutters);
    }
    move_tables_at_once(rt, alloc, grid, depth, moves, cutters, workers)
}

/// All of it by `workers` workers, two or more: which strips moves enter in a thread of its own where one can be made, and at the same time
/// the rest, in two threads where there are three workers and in three where there are more. No part waits for another. Fails only when
/// out of memory.
pub(crate) fn prepared_by<R: Threads + Sync>(
    rt: &R,
    alloc: Global,
    grid: &Grid,
    depth: u32,
    moves: &[PlanMove],
    cutters: &Cutters,
    edits: &[Edit],
    workers: u32,
) -> Result<(StripWindows, MoveTables), NoMemory>
    requires shallow { depth ≤ 10 }
    requires stacks { AreStacksOf moves.now cutters.now }
    requires named { All (AppliesBelow (length moves.now)) edits.now }
    ensures windows { IfOk result (λ made. AreWindowsOf grid.now cutters.now.slabs depth moves.now edits.now made.0) }
    ensures tables { IfOk result (λ made. AreTablesFor grid.now cutters.now.slabs depth moves.now made.1) }
{
    let front = move || -> Result<StripWindows, NoMemory>
        requires { (depth ≤ 10) × AreStacksOf moves.now cutters.now × All (AppliesBelow (length moves.now)) edits.now }
        ensures { IfOk result (AreWindowsOf grid.entry.now cutters.entry.now.slabs depth moves.entry.now edits.entry.now) }
    { strip_windows_of(alloc, grid, depth, moves, cutters, edits) };
    let back = move || -> Result<MoveTables, NoMemory>
        requires { IsSync R.row × (depth ≤ 10) × AreStacksOf moves.now cutters.now }
        ensures { IfOk result (AreTablesFor grid.entry.now cutters.entry.now.slabs depth moves.entry.now) }
    { move_tables_by(rt, alloc, grid, depth, moves, cutters, workers) };
    let (windows, tables) = join(rt, front, back);
    let windows = windows?;
    let tables = tables?;
    Ok((windows, tables))
}
