ghost use Rattle.std.specs.Prelude.{◌≡◌, ◌<◌, ◌≤◌, All, Some, IfOk, length, slice_get};
ghost use Rattle.edit_plan.specs.Edits.{AppliesBelow};
ghost use Rattle.edit_plan.specs.Limits.{most_edits, most_script_moves};
ghost use Rattle.job_model.specs.Tasks.{IsPlan, JobMove};
ghost use Rattle.strip_plan.specs.Parts.{IsPreparedOf};
ghost use Rattle.strip_plan.specs.Plans.{HasNumber, move_in};
ghost use Rattle.wanted_marks.specs.Ready.{IsReadyMove};

use crate::cutters::{Cutters, cutters_of};
use crate::plan_move::PlanMove;
use crate::prepared::{Prepared, move_tables_of, prepared_by, strip_windows_of};
use edit_plan::{Edit, Edits};
use ray_grid::Grid;
use std::alloc::Global;
use std::marker::Model;
use std::thread::Threads;
use vf_io::NoMemory;
use wanted_marks::{MoveMarker, ReadyMove};

/// What a plan is made of, with the stacks of the moves' cutters. Its value is the plan that it becomes: so strips can be made by it
/// while the plan is still computed.
#[derive(Drop)]
pub struct PlanDraft {
    pub(crate) grid: Grid,
    pub(crate) depth: u32,
    pub(crate) moves: Vec<PlanMove>,
    pub(crate) edits: Edits,
    pub(crate) cutters: Cutters,
}

impl Model for PlanDraft {
    ghost use Rattle.std.specs.Prelude.{◌≤◌, All, length};
    ghost use Rattle.edit_plan.specs.Edits.{AppliesBelow};
    ghost use Rattle.edit_plan.specs.Limits.{most_edits, most_script_moves};
    ghost use Rattle.job_model.specs.Tasks.{IsPlan, PlanOf};
    ghost use Rattle.strip_plan.specs.Parts.{AreStacksOf};

    ghost Value = { PlanOf };

    ghost view = { λ d. record { grid = d.grid; slabs = d.cutters.slabs; depth = d.depth; moves = d.moves.items; edits = d.edits } };

    ghost invariant = { λ d. (d.depth ≤ 10) × (length d.moves.items ≤ most_script_moves) × (length d.edits ≤ most_edits)
        × All (AppliesBelow (length d.moves.items)) d.edits
        × IsPlan record { grid = d.grid; slabs = d.cutters.slabs; depth = d.depth; moves = d.moves.items; edits = d.edits }
        × AreStacksOf d.moves.items d.cutters × (d.cutters.slabs ≤ 256) };
}

impl PlanDraft {
    /// What a plan is made of: moves, for cutters in `slabs` and times in 2^`depth` cells. Fails only when out of memory.
    pub fn new(
        alloc: Global,
        grid: Grid,
        slabs: u32,
        depth: u32,
        moves: Vec<PlanMove>,
        edits: Edits,
    ) -> Result<PlanDraft, NoMemory>
        requires some { 1 ≤ slabs }
        requires few { slabs ≤ 256 }
        requires shallow { depth ≤ 10 }
        requires few_moves { length moves.items ≤ most_script_moves }
        requires few_edits { length edits ≤ most_edits }
        requires named { All (AppliesBelow (length moves.items)) edits }
        ensures { IfOk result (λ draft. draft
            ≡ record { grid = grid; slabs = slabs; depth = depth; moves = moves.items; edits = edits }) }
    {
        let cutters = cutters_of(alloc, &moves, slabs)?;
        Ok(PlanDraft {
            grid,
            depth,
            moves,
            edits,
            cutters,
        })
    }

    /// What is computed of the moves and the edits, once for all strips. Fails only when out of memory.
    pub(crate) fn prepare(&self, alloc: Global) -> Result<Prepared, NoMemory>
        ensures { IfOk result (IsPreparedOf self.now) }
    {
        let edits = self.edits.as_slice();
        let windows = strip_windows_of(
            alloc,
            &self.grid,
            self.depth,
            &self.moves,
            &self.cutters,
            edits,
        )?;
        let tables = move_tables_of(alloc, &self.grid, self.depth, &self.moves, &self.cutters)?;
        Ok(Prepared { windows, tables })
    }

    /// The same by `workers` workers: each thread has a part of it, and there are at most four threads.
    pub fn prepare_by<R: Threads + Sync>(
        &self,
        rt: &R,
        alloc: Global,
        workers: u32,
    ) -> Result<Prepared, NoMemory>
        ensures { IfOk result (IsPreparedOf self.now) }
    {
        if workers < 2 {
            return self.prepare(alloc);
        }
        let (windows, tables) = prepared_by(
            rt,
            alloc,
            &self.grid,
            self.depth,
            &self.moves,
            &self.cutters,
            self.edits.as_slice(),
            workers,
        )?;
        Ok(Prepared { windows, tables })
    }

    /// The lattice.
    pub fn grid(&self) -> &Grid
        ensures { result.now ≡ self.now.grid }
    {
        &self.grid
    }

    /// How many moves the program has. The plan is valid and its depth is at most 10.
    pub fn moves(&self) -> u32
        ensures count { result ≡ length self.now.moves }
        ensures few { result ≤ most_script_moves }
        ensures valid { IsPlan self.now }
        ensures shallow { self.now.depth ≤ 10 }
    {
        self.moves.len() as u32
    }

    /// How many edits there are.
    pub fn edits(&self) -> u32
        ensures count { result ≡ length self.now.edits }
        ensures few { result ≤ most_edits }
        ensures named { All (AppliesBelow (length self.now.moves)) self.now.edits }
    {
        self.edits.len() as u32
    }

    /// The edit that follows a version. The move that it applies is one of the plan's.
    pub(crate) fn edit(&self, version: u32) -> Edit
        requires { version < length self.now.edits }
        ensures edit { slice_get self.now.edits version ≡ Some result }
        ensures named { AppliesBelow (length self.now.moves) result }
    {
        self.edits.as_slice()[version as usize]
    }

    /// The edits, as a list.
    pub(crate) fn edit_list(&self) -> &[Edit]
        ensures list { result.now ≡ self.now.edits }
        ensures named { All (AppliesBelow (length self.now.moves)) self.now.edits }
    {
        self.edits.as_slice()
    }

    /// A move by its number.
    pub fn plan_move(&self, number: u32) -> PlanMove
        requires { number < length self.now.moves }
        ensures { HasNumber self.now number result }
    {
        self.moves[number as usize]
    }

    /// Whether a move is in rapid motion.
    pub(crate) fn is_rapid(&self, number: u32) -> bool
        requires { number < length self.now.moves }
        ensures { (move : JobMove) → HasNumber self.now number move → result ≡ move.rapid }
    {
        self.moves[number as usize].rapid
    }

    /// The line where a move's record begins.
    pub(crate) fn line(&self, number: u32) -> u32
        requires { number < length self.now.moves }
        ensures { (move : JobMove) → HasNumber self.now number move → result ≡ move.line }
    {
        self.moves[number as usize].line
    }

    /// What marks the points of rays by a move, by what was computed of that move.
    pub(crate) fn marker<'a>(&'a self, number: u32, ready: &'a ReadyMove) -> MoveMarker<'a>
        requires number { number < length self.now.moves }
        requires ready { (move : JobMove) → HasNumber self.now number move → IsReadyMove ready.now (move_in self.now move) }
        ensures marker { (move : JobMove) → HasNumber self.now number move → result ≡ move_in self.now move }
        ensures valid { IsPlan self.now }
    {
        let place = self.cutters.places[number as usize];
        MoveMarker::of_ready(
            &self.moves[number as usize].sweep,
            &self.cutters.stacks[place],
            self.depth,
            ready,
        )
    }
}
