ghost use Rattle.std.specs.Prelude.{◌≡◌, ◌+◌, ◌<◌, ◌≤◌, All, Some, IfOk, length, slice_get};
ghost use Rattle.edit_plan.specs.Edits.{AppliesBelow};
ghost use Rattle.edit_plan.specs.Limits.{most_edits, most_script_moves};
ghost use Rattle.ray_grid.specs.Strips.{strip_at, strips_of};
ghost use Rattle.job_model.specs.Tasks.{IsPlan, JobMove};
ghost use Rattle.strip_plan.specs.Parts.{IsPreparedOf};
ghost use Rattle.strip_plan.specs.Plans.{HasNumber, move_in};
ghost use Rattle.strip_plan.specs.Untouched.{ArePassed};
ghost use Rattle.strip_plan.specs.Windows.{HoldsEntered, HoldsMet, IsAlongStrip};

use crate::draft::PlanDraft;
use crate::plan_move::PlanMove;
use crate::prepared::{MoveTables, Prepared, StripWindows};
use crate::strip_range::StripRange;
use crate::untouched::count_untouched;
use crate::windows::{range_in_strip, row};
use edit_plan::{Edit, Edits};
use ray_grid::{Family, Grid, Ray};
use std::alloc::Global;
use std::marker::Model;
use sweep_boxes::BoundingCylinder;
use vf_io::NoMemory;
use wanted_marks::MoveMarker;

/// A plan, ready for strips. Its value is what it was made of.
#[derive(Drop)]
pub struct Plan {
    draft: PlanDraft,
    windows: StripWindows,
    tables: MoveTables,
}

impl Model for Plan {
    ghost use Rattle.job_model.specs.Tasks.{PlanOf};
    ghost use Rattle.strip_plan.specs.Parts.{AreTablesFor, AreWindowsOf};

    ghost Value = { PlanOf };

    ghost view = { λ p. p.draft };

    ghost invariant = { λ p. AreWindowsOf p.draft.grid p.draft.slabs p.draft.depth p.draft.moves p.draft.edits p.windows
        × AreTablesFor p.draft.grid p.draft.slabs p.draft.depth p.draft.moves p.tables };
}

impl Plan {
    /// The plan of moves, for cutters in `slabs` and times in 2^`depth` cells. Fails only when out of memory.
    pub fn new(
        alloc: Global,
        grid: Grid,
        slabs: u32,
        depth: u32,
        moves: Vec<PlanMove>,
        edits: Edits,
    ) -> Result<Plan, NoMemory>
        requires some { 1 ≤ slabs }
        requires few { slabs ≤ 256 }
        requires shallow { depth ≤ 10 }
        requires few_moves { length moves.items ≤ most_script_moves }
        requires few_edits { length edits ≤ most_edits }
        requires named { All (AppliesBelow (length moves.items)) edits }
        ensures { IfOk result (λ plan. plan ≡ record { grid = grid; slabs = slabs; depth = depth; moves = moves.items; edits = edits }) }
    {
        let draft = PlanDraft::new(alloc, grid, slabs, depth, moves, edits)?;
        let prepared = draft.prepare(alloc)?;
        Ok(Plan::of_draft(draft, prepared))
    }

    /// The plan that a draft becomes, by what was computed of that draft.
    pub fn of_draft(draft: PlanDraft, prepared: Prepared) -> Plan
        requires { IsPreparedOf draft prepared }
        ensures { result ≡ draft }
    {
        let Prepared { windows, tables } = prepared;
        Plan {
            draft,
            windows,
            tables,
        }
    }

    /// What the plan was made of.
    pub fn draft(&self) -> &PlanDraft
        ensures { result.now ≡ self.now }
    {
        &self.draft
    }

    /// The lattice.
    pub fn grid(&self) -> &Grid
        ensures { result.now ≡ self.now.grid }
    {
        self.draft.grid()
    }

    /// How many moves the program has. The plan is valid and its depth is at most 10.
    pub fn moves(&self) -> u32
        ensures count { result ≡ length self.now.moves }
        ensures few { result ≤ most_script_moves }
        ensures valid { IsPlan self.now }
        ensures shallow { self.now.depth ≤ 10 }
    {
        self.draft.moves()
    }

    /// How many edits there are.
    pub fn edits(&self) -> u32
        ensures count { result ≡ length self.now.edits }
        ensures few { result ≤ most_edits }
        ensures named { All (AppliesBelow (length self.now.moves)) self.now.edits }
    {
        self.draft.edits()
    }

    /// The edit that follows a version. The move that it applies is one of the plan's.
    pub fn edit(&self, version: u32) -> Edit
        requires { version < length self.now.edits }
        ensures edit { slice_get self.now.edits version ≡ Some result }
        ensures named { AppliesBelow (length self.now.moves) result }
    {
        self.draft.edit(version)
    }

    /// Whether a move is in rapid motion.
    pub fn is_rapid(&self, number: u32) -> bool
        requires { number < length self.now.moves }
        ensures { (move : JobMove) → HasNumber self.now number move → result ≡ move.rapid }
    {
        self.draft.is_rapid(number)
    }

    /// The line where a move's record begins.
    pub fn line(&self, number: u32) -> u32
        requires { number < length self.now.moves }
        ensures { (move : JobMove) → HasNumber self.now number move → result ≡ move.line }
    {
        self.draft.line(number)
    }

    /// What marks the points of rays by a move.
    pub fn marker(&self, number: u32) -> MoveMarker<'_>
        requires { number < length self.now.moves }
        ensures marker { (move : JobMove) → HasNumber self.now number move → result ≡ move_in self.now move }
        ensures valid { IsPlan self.now }
    {
        self.draft
            .marker(number, self.tables.ready(number as usize))
    }

    /// From the one index to the other lie, on every ray of a strip, that of a family's rays with the first node `i`, all at which a move
    /// is possible. The second is excluded.
    pub fn strip_along(&self, number: u32, family: Family, i: u32) -> (u32, u32)
        requires { number < length self.now.moves }
        ensures { IsAlongStrip self.now number family i result }
    {
        let start = self.windows.boxes.starts[number as usize];
        let end = self.windows.boxes.starts[number as usize + 1];
        if start == end {
            return self.windows.boxes.hulls[number as usize].along(family);
        }
        range_in_strip(
            &self.windows.boxes.boxes,
            start,
            end,
            family,
            i,
            StripRange::Points,
        )
    }

    /// The cylinder that holds the points of the lattice at which a move is possible.
    pub fn cylinder(&self, number: u32) -> &BoundingCylinder
        requires { number < length self.now.moves }
        ensures { (move : JobMove) → HasNumber self.now number move → HoldsMet self.now move result.now }
    {
        &self.tables.cylinders[number as usize]
    }

    /// From the one number of a strip's rays to the other are all with a point at which a move is possible. The second is
    /// excluded; the two are equal where the move's boxes leave the strip alone.
    pub fn strip_window(&self, number: u32, strip: u32) -> (u32, u32)
        requires number { number < length self.now.moves }
        requires strip { strip < length (strips_of self.now.grid) }
        ensures order { result.0 ≤ result.1 }
        ensures within { result.1 ≤ length (strip_at self.now.grid strip) }
        ensures holds { (move : JobMove) → HasNumber self.now number move → HoldsEntered self.now move strip result.0 result.1 }
    {
        let (family, i) = row(self.draft.grid(), strip);
        let window = self.windows.boxes.hulls[number as usize].in_strip(
            family,
            i,
            StripRange::Rays,
        );
        if window.0 == window.1 {
            return window;
        }
        let start = self.windows.boxes.starts[number as usize];
        let end = self.windows.boxes.starts[number as usize + 1];
        if start == end {
            return window;
        }
        range_in_strip(
            &self.windows.boxes.boxes,
            start,
            end,
            family,
            i,
            StripRange::Rays,
        )
    }

    /// How many of the edits from a version on, one after the other and at most `most`, apply a move whose boxes leave a strip alone.
    pub fn untouched_edits(&self, version: u32, most: u32, strip: u32) -> u32
        requires edits { version + most ≤ length self.now.edits }
        requires strip { strip < length (strips_of self.now.grid) }
        ensures most { result ≤ most }
        ensures alone { ArePassed self.now strip version result }
    {
        let (family, i) = row(self.draft.grid(), strip);
        let from = version as usize;
        let to = from + most as usize;
        let edits = self.draft.edit_list();
        count_untouched(
            &self.windows.boxes.hulls,
            &self.windows.groups,
            edits,
            from,
            to,
            family,
            i,
        ) as u32
    }
}
