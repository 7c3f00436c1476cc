use crate::grid_forms::GridForms;
use crate::held::Held;
use crate::hull::{are_behind, are_beside};
use crate::limits::diameter_of;
use crate::line::Line;
use crate::near::Near;
use crate::on_stretch::StretchLine;
use crate::peak::Peak;
use crate::ray_marker::RayMarker;
use crate::ready_move::ReadyMove;
use crate::sheet::{Sheet, heights_on, width_on};
use crate::strip_marker::StripMarker;
use axis_cells::{Mark, Sweep, short_scaled_square};
use cutter_slabs::Stacks;
use ray_grid::{Family, Grid, Ray};
use ray_runs::{OpenStretch, Run, open_stretch, sure_run};
use std::marker::Model;
use width_bisect::{Asked, Sample, WholeForms, mark_below, mark_by_forms, mark_on_part};

/// A move of a cutter, ready to mark points of rays, by what is computed of it once and is the same for all of them.
#[derive(Drop)]
pub struct MoveMarker<'a> {
    sweep: &'a Sweep,
    stacks: &'a Stacks,
    depth: u32,
    ready: &'a ReadyMove,
}

impl<'a> Model for MoveMarker<'a> {
    ghost use Rattle.wanted_marks.specs.Rays.{MoveOf, move_of};
    ghost use Rattle.wanted_marks.specs.Ready.{IsReadyMove};

    ghost Value = { MoveOf };

    ghost view = { λ s. move_of s.stacks.now s.sweep.now s.depth };

    ghost invariant = { λ s. IsReadyMove s.ready.now (move_of s.stacks.now s.sweep.now s.depth) };
}

impl<'a> MoveMarker<'a> {
    ghost use Rattle.std.specs.Prelude.{◌≡◌, ◌+◌, ◌^◌, ◌<◌, ◌≤◌, ◌-◌, ◌≤ℤ◌, ℕ, ℤ, List, pos, true, IsTrue, All};
    ghost use Rattle.std.specs.Option.{IfSome, MatchOption};
    ghost use Rattle.space.specs.Ranges.{IsPoint};
    ghost use Rattle.ray_grid.specs.Families.{first_axis};
    ghost use Rattle.ray_grid.specs.Lattice.{IsRay, nodes_of, point_of, points_of};
    ghost use Rattle.bern_form.specs.Forms.{IsSmall};
    ghost use Rattle.space.specs.Vectors.{at};
    ghost use Rattle.wanted_marks.specs.GridForms.{AreGridForms};
    ghost use Rattle.wanted_marks.specs.Lines.{FitsAt, HasFormsIn, IsLineOf, bend_over, height_at, width_at};
    ghost use Rattle.wanted_marks.specs.Nears.{AreInnerBounds, IsNear};
    ghost use Rattle.wanted_marks.specs.Opens.{IsOpenAt};
    ghost use Rattle.wanted_marks.specs.StretchLines.{HasFormsOn, IsStretchLineOf};
    ghost use Rattle.wanted_marks.specs.Rays.{IsClearOf, IsRemovedBy, RayOf, is_possible_in, is_sure_in, move_of};
    ghost use Rattle.cutter_slabs.specs.Stacks.{outer_stack};
    ghost use Rattle.width_bisect.specs.Below.{IsBelowFrom};
    ghost use Rattle.width_bisect.specs.Bounds.{meets};
    ghost use Rattle.wanted_marks.specs.Ready.{IsReadyMove};
    ghost use Rattle.wanted_marks.specs.Runs.{IsHeldFirst, IsHeldIn, IsHeldLast, IsRun};
    ghost use Rattle.wanted_marks.specs.Samples.{IsAtFirst, IsAtLast, IsFirstOf, IsLastOf, IsSampleAt};
    ghost use Rattle.wanted_marks.specs.declared.line.Line.{Line};
    ghost use Rattle.wanted_marks.specs.Strips.{IsSheetOf};
    ghost use Rattle.wanted_marks.specs.Told.{tells_possible, tells_sure};

    /// For marks by the stacks and the reach of a cutter, at the samples and on the cells of a depth, by what was computed of that move.
    pub fn of_ready(
        sweep: &'a Sweep,
        stacks: &'a Stacks,
        depth: u32,
        ready: &'a ReadyMove,
    ) -> MoveMarker<'a>
        requires { IsReadyMove ready.now (move_of stacks.now sweep.now depth) }
        ensures { result ≡ move_of stacks.now sweep.now depth }
    {
        MoveMarker {
            sweep,
            stacks,
            depth,
            ready,
        }
    }

    /// For the points of one ray of the grid.
    pub fn on_ray(&'a self, grid: &'a Grid, ray: Ray) -> RayMarker<'a>
        requires { IsRay grid.now ray }
        ensures { result ≡ record { sweep = self.now; grid = grid.now; ray = ray } }
    {
        RayMarker::new(self, grid, ray)
    }

    /// For the points of the rays of one strip, those of a family with the node i.
    pub fn on_strip(&'a self, grid: &'a Grid, family: Family, i: u32) -> StripMarker<'a>
        requires { i < nodes_of grid.now (first_axis family) }
        ensures { result ≡ record { sweep = self.now; grid = grid.now; family = family; i = i } }
    {
        StripMarker::new(self, grid, family, i)
    }

    /// Whether its tip goes further than three times the cutter's width. Points are then met far from both ends of the move.
    #[inline]
    pub(crate) fn is_long(&self) -> bool {
        self.ready.is_long
    }

    /// Some points of a ray from one index to another that one sample shows to be sure, and so possible.
    pub(crate) fn sure_run(&self, grid: &Grid, ray: &Ray, from: u32, to: u32) -> Option<Run>
        requires ray { IsRay grid.now ray.now }
        requires order { from ≤ to }
        requires within { to < points_of grid.now ray.now.family }
        ensures first { IfSome result (λ run. from ≤ run.first) }
        ensures order { IfSome result (λ run. run.first ≤ run.last) }
        ensures last { IfSome result (λ run. run.last ≤ to) }
        ensures sure { IfSome result (λ run. (l : ℕ) → run.first ≤ l → l ≤ run.last
            → IsRemovedBy self.now (point_of grid.now ray.now l)) }
    {
        // Reading a field of the move gives the prover its invariant.
        let _valid = &self.depth;
        sure_run(self.sweep, self.stacks, self.depth, grid, ray, from, to)
    }

    /// The part of the move outside of which all points of a ray from one index to another are clear of it, as the halves of its time
    /// show. Where there is none they are clear throughout.
    pub(crate) fn open_stretch(
        &self,
        grid: &Grid,
        ray: &Ray,
        from: u32,
        to: u32,
    ) -> Option<OpenStretch>
        requires ray { IsRay grid.now ray.now }
        requires order { from ≤ to }
        requires within { to < points_of grid.now ray.now.family }
        ensures { MatchOption result
            ((l : ℕ) → from ≤ l → l ≤ to → IsClearOf self.now (point_of grid.now ray.now l))
            (λ s. (l : ℕ) → from ≤ l → l ≤ to → IsOpenAt s self.now (point_of grid.now ray.now l)) }
    {
        // Reading a field of the move gives the prover its invariant.
        let _valid = &self.depth;
        open_stretch(self.sweep, self.stacks, self.depth, grid, ray, from, to)
    }

    /// Whether a stretch is no longer than half of the move, so that it pays to mark each point only on it.
    #[inline]
    pub(crate) fn is_short(&self, stretch: &OpenStretch) -> bool {
        stretch.levels <= self.depth.saturating_sub(1)
    }

    /// The line through the points of a ray on a stretch of the move, where the ray has two or more.
    pub(crate) fn line_on_stretch(
        &self,
        grid: &Grid,
        ray: &Ray,
        stretch: &OpenStretch,
    ) -> Option<StretchLine>
        requires ray { IsRay grid.now ray.now }
        requires few { stretch.now.levels ≤ 10 }
        requires within { stretch.now.first + 2 ^ stretch.now.levels ≤ 2 ^ self.now.depth }
        ensures { let r : RayOf = record { sweep = self.now; grid = grid.now; ray = ray.now } in
            IfSome result (λ line. IsStretchLineOf line stretch.now r) }
    {
        let points = grid.points(ray.family);
        if points < 2 {
            return None;
        }
        let start = grid.point(ray, 0);
        let next = grid.point(ray, 1);
        // The points between the first and the last lie within a metre as these two do.
        let _last = grid.point(ray, points - 1);
        Some(StretchLine::through(&start, &next, self.sweep, stretch, self.ready.scale))
    }

    /// The answer for the point l steps on along a line, by the forms that the line has there on the stretch outside of which the point
    /// is clear. `near` is the number of a slab to look from; where the slab at the point's height is looked for, its number
    /// replaces `near`.
    #[inline]
    pub(crate) fn mark_on_stretch(
        &self,
        line: &StretchLine,
        l: u32,
        point: [i32; 3],
        stretch: &OpenStretch,
        near: &mut usize,
        asked: Asked,
    ) -> Mark
        requires point { IsPoint point }
        requires fits { FitsAt line.now.line (pos l) }
        requires open { IsOpenAt stretch.now self.now point }
        requires forms { HasFormsOn line.now (pos l) stretch.now self.now point }
        ensures sure { tells_sure result ≡ is_sure_in self.now point }
        ensures possible { asked ≡ Asked.Whole → tells_possible result ≡ is_possible_in self.now point }
    {
        let forms = line.forms(l);
        mark_on_part(
            self.sweep,
            self.stacks,
            point,
            &forms,
            stretch.levels,
            self.depth,
            near,
            asked,
        )
    }

    /// The answer for the point l steps on along a line, by the forms that the line has there. The point is below the outer slab with the
    /// number `high` throughout the move, where there is one. Where only whether the point is sure is wanted, that is all that the mark
    /// says.
    pub(crate) fn mark_on(
        &self,
        line: &Line,
        l: u32,
        point: [i32; 3],
        high: usize,
        asked: Asked,
    ) -> Mark
        requires point { IsPoint point }
        requires fits { FitsAt line.now (pos l) }
        requires forms { HasFormsIn line.now (pos l) self.now point }
        requires below { let v = self.now in IsBelowFrom (outer_stack v.cutter v.slabs) v.sweep point (2 ^ v.depth) high }
        ensures sure { tells_sure result ≡ is_sure_in self.now point }
        ensures possible { asked ≡ Asked.Whole → tells_possible result ≡ is_possible_in self.now point }
    {
        let forms = WholeForms {
            u: heights_on(line, l),
            n: self.ready.axis_forms.n,
            width: width_on(line, l),
        };
        if self.depth == 0 || !self.ready.axis_forms.is_open() {
            return mark_by_forms(
                self.sweep,
                self.stacks,
                point,
                &forms,
                self.depth,
                high,
                asked,
            );
        }
        mark_below(
            self.sweep,
            self.stacks,
            point,
            &forms,
            high,
            self.depth,
            asked,
        )
    }

    /// The sheet through the points of a strip, from the forms of the grid's points.
    #[inline(always)]
    fn sheet_on(&self, forms: &GridForms, grid: &Grid, family: Family, i: u32) -> Sheet
        requires strip { i < nodes_of grid.now (first_axis family) }
        requires forms { AreGridForms forms.now self.now.sweep grid.now (2 ^ self.now.depth) }
        ensures { IsSheetOf result record { sweep = self.now; grid = grid.now; family = family; i = i } }
    {
        // The first point of the strip lies within a metre. The fields that are read give the prover the invariants of grid and move.
        let _sized = &grid.origin;
        let _first = grid.point(&Ray { family, i, j: 0 }, 0);
        let _valid = &self.depth;
        forms.strip(family, i)
    }

    /// The sheet through the points of a strip of another grid than the one whose forms are ready: the forms of that grid's points are
    /// computed first. It is a function of its own, for `verify` has one grid.
    #[inline(never)]
    fn made_sheet(&self, grid: &Grid, family: Family, i: u32) -> Sheet
        requires { i < nodes_of grid.now (first_axis family) }
        ensures { IsSheetOf result record { sweep = self.now; grid = grid.now; family = family; i = i } }
    {
        let forms = GridForms::of_grid(grid, self.sweep, &self.ready.axis_forms, self.ready.scale);
        self.sheet_on(&forms, grid, family, i)
    }

    /// The sheet through the points of a strip, from the forms of its grid's points: from those that are ready, where they are that
    /// grid's.
    pub(crate) fn strip_sheet(&self, grid: &Grid, family: Family, i: u32) -> Sheet
        requires { i < nodes_of grid.now (first_axis family) }
        ensures { IsSheetOf result record { sweep = self.now; grid = grid.now; family = family; i = i } }
    {
        let forms = &self.ready.forms;
        if forms.is_of(grid) {
            return self.sheet_on(forms, grid, family, i);
        }
        self.made_sheet(grid, family, i)
    }

    /// The line through the points of a ray, from the sheet of its strip.
    pub(crate) fn line_on(&self, sheet: &Sheet, grid: &Grid, ray: &Ray) -> Line
        requires ray { IsRay grid.now ray.now }
        requires sheet { IsSheetOf sheet.now record { sweep = self.now; grid = grid.now; family = ray.now.family; i = ray.now.i } }
        ensures { IsLineOf result record { sweep = self.now; grid = grid.now; ray = ray.now } }
    {
        // The points between the first and the last lie within a metre as these two do. Reading a field of the grid, which has a point on
        // each ray, and of the move gives the prover their invariants.
        let _sized = &grid.origin;
        let points = grid.points(ray.family);
        let _start = grid.point(ray, 0);
        let _last = grid.point(ray, points - 1);
        let _valid = &self.depth;
        sheet.line(ray.j)
    }

    /// The line through the points of a ray.
    pub(crate) fn line_of(&self, grid: &Grid, ray: &Ray) -> Line
        requires { IsRay grid.now ray.now }
        ensures { IsLineOf result record { sweep = self.now; grid = grid.now; ray = ray.now } }
    {
        let sheet = self.strip_sheet(grid, ray.family, ray.i);
        self.line_on(&sheet, grid, ray)
    }

    /// The last sample of the point l steps on.
    #[inline]
    pub(crate) fn last_sample(&self, line: &Line, l: u32) -> Sample
        requires { FitsAt line.now (pos l) }
        ensures u { result.u ≡ height_at line.now 2 (pos l) }
        ensures width { result.width ≡ at (width_at line.now (pos l)) 4 }
        ensures at_last { IsAtLast result self.now }
        ensures last { (p : List ℤ) → HasFormsIn line.now (pos l) self.now p → IsLastOf result self.now p }
    {
        Sample {
            scale: self.ready.scale,
            u: line.last_height(l),
            n: self.ready.axis_forms.last_square(),
            width: line.last_width(l),
        }
    }

    /// The first sample of the point l steps on.
    #[inline]
    fn first_sample(&self, line: &Line, l: u32) -> Sample
        requires { FitsAt line.now (pos l) }
        ensures at_first { IsAtFirst result self.now }
        ensures first { (p : List ℤ) → HasFormsIn line.now (pos l) self.now p → IsFirstOf result self.now p }
    {
        Sample {
            scale: self.ready.scale,
            u: line.first_height(l),
            n: self.ready.axis_forms.first_square(),
            width: line.first_width(l),
        }
    }

    /// Whether the point l steps on is behind the tip throughout the move, or beside every outer slab, by its last sample first. It is
    /// then neither sure nor possible.
    #[inline]
    pub(crate) fn is_missed(&self, line: &Line, l: u32, last: &Sample) -> bool
        requires fits { FitsAt line.now (pos l) }
        requires u { last.now.u ≡ height_at line.now 2 (pos l) }
        requires width { last.now.width ≡ at (width_at line.now (pos l)) 4 }
        ensures { IsTrue result → (p : List ℤ) → HasFormsIn line.now (pos l) self.now p → IsClearOf self.now p }
    {
        let limits = &self.ready.limits;
        if line.is_behind(l, last.u) {
            return true;
        }
        line.exceed(l, last.width, limits)
    }

    /// The number of the lowest outer slab that begins higher than the point l steps on ever is: the point is below it throughout the move,
    /// and below those above it. None where the point is outside of each outer slab throughout: beside the one before that number, so
    /// beside those below it too, which are no wider. It is then neither sure nor possible. `near` is the number of a slab to look from.
    pub(crate) fn slab_above(
        &self,
        line: &Line,
        l: u32,
        last: &Sample,
        near: usize,
    ) -> Option<usize>
        requires fits { FitsAt line.now (pos l) }
        requires u { last.now.u ≡ height_at line.now 2 (pos l) }
        requires width { last.now.width ≡ at (width_at line.now (pos l)) 4 }
        ensures { let v = self.now in MatchOption result
            ((p : List ℤ) → HasFormsIn line.now (pos l) v p → IsClearOf v p)
            (λ high. (p : List ℤ) → HasFormsIn line.now (pos l) v p
            → IsBelowFrom (outer_stack v.cutter v.slabs) v.sweep p (2 ^ v.depth) high) }
    {
        let outer = self.stacks.outer();
        let peak = Peak {
            scale: self.ready.scale,
            square: line.peak(l, last.u),
            least: self.ready.axis_forms.least,
        };
        let reached = peak.reached(outer, near);
        if reached == 0 {
            return None;
        }
        let factor = short_scaled_square(self.ready.scale, diameter_of(&outer[reached - 1]));
        if line.exceed_times(l, last.width, factor, &self.ready.axis_forms.raised) {
            return None;
        }
        Some(reached)
    }

    /// Whether the points from the one l steps on to the one m steps on are all behind the tip throughout the move, or all beside
    /// every outer slab.
    pub(crate) fn are_missed(&self, line: &Line, l: u32, m: u32) -> bool
        requires order { l ≤ m }
        requires few { m - l < 64 }
        requires first { FitsAt line.now (pos l) }
        requires last { FitsAt line.now (pos m) }
        requires bend { All IsSmall (bend_over line.now (pos (m - l))) }
        ensures { IsTrue result → (x : ℕ) → l ≤ x → x ≤ m → (p : List ℤ) → HasFormsIn line.now (pos x) self.now p
            → IsClearOf self.now p }
    {
        let limits = &self.ready.limits;
        if are_behind(line, l, m) {
            return true;
        }
        are_beside(line, l, m, limits)
    }

    /// The inner slab at a point's height at a sample, and what it requires of a point there. It is looked for from the number `near` on.
    #[inline]
    fn inner_near(&self, sample: &Sample, near: usize) -> Near
        ensures { (k : ℕ) → IsSampleAt sample.now self.now k → AreInnerBounds result.bounds self.now k }
    {
        let inner = self.stacks.inner();
        let reached = sample.reached(inner, near);
        Near {
            reached,
            bounds: sample.bounds(inner, reached),
        }
    }

    /// Looks for the inner slab at a point's height, where the one that was looked for last isn't there: from the number on that the move's
    /// table has for that height, which is mostly nearer than that of the point before.
    #[inline]
    fn look_near(&self, last: &Sample, near: &mut Near)
        requires last { IsAtLast last.now self.now }
        requires near { IsNear near.old self.now }
        ensures { IsNear near.new self.now }
    {
        if near.bounds.is_between(last) {
            return;
        }
        *near = self.inner_near(last, self.ready.table.near(last.u));
    }

    /// Whether some inner slab holds a point at its last sample. It is then sure. The slab at its height replaces the one that
    /// was looked for last.
    #[inline]
    pub(crate) fn is_held_last(&self, last: &Sample, near: &mut Near) -> bool
        requires last { IsAtLast last.now self.now }
        requires near { IsNear near.old self.now }
        ensures near { IsNear near.new self.now }
        ensures ahead { IsTrue result → pos 0 ≤ℤ last.now.u }
        ensures met { IsTrue result → meets near.new.bounds last.now.u last.now.width ≡ true }
        ensures held { IsTrue result → (p : List ℤ) → IsLastOf last.now self.now p → IsRemovedBy self.now p }
    {
        // Reading a field of the move gives the prover its invariant.
        let _valid = &self.depth;
        if last.u < 0 {
            return false;
        }
        self.look_near(last, near);
        near.bounds.holds(last)
    }

    /// Whether some inner slab holds the point l steps on at its first sample. It is then sure. `near` is the number of a slab to look
    /// from. A wide cutter still holds there what it leaves behind; a point that is beside every outer slab there isn't tested further.
    pub(crate) fn is_held_first(&self, line: &Line, l: u32, near: usize) -> bool
        requires { FitsAt line.now (pos l) }
        ensures { IsTrue result → (p : List ℤ) → HasFormsIn line.now (pos l) self.now p → IsRemovedBy self.now p }
    {
        let first = self.first_sample(line, l);
        if self.ready.limits[0] < first.width {
            return false;
        }
        first.is_held(self.stacks.inner(), near)
    }

    /// What is known of the point l steps on where an inner slab holds it at its first sample. It is then sure. `near` is the number of a
    /// slab to look from; where the slab at the point's height is looked for, its number replaces `near`.
    pub(crate) fn held_first(&self, line: &Line, l: u32, near: &mut usize) -> Option<Held>
        requires { FitsAt line.now (pos l) }
        ensures index { IfSome result (λ held. held.index ≡ l) }
        ensures held { (p : List ℤ) → HasFormsIn line.now (pos l) self.now p → IfSome result (λ held. IsHeldIn held self.now p 0) }
        ensures sure { (p : List ℤ) → HasFormsIn line.now (pos l) self.now p → IfSome result (λ _held. IsRemovedBy self.now p) }
    {
        // Reading a field of the move gives the prover its invariant.
        let _valid = &self.depth;
        let sample = self.first_sample(line, l);
        if sample.u < 0 {
            return None;
        }
        let found = self.inner_near(&sample, *near);
        *near = found.reached;
        if !found.bounds.holds(&sample) {
            return None;
        }
        Some(Held {
            index: l,
            sample,
            bounds: found.bounds,
        })
    }

    /// Whether the points of a ray from one that is held to another that is held at the same sample, the first or the last one, are all
    /// sure: each is no farther from the axis than the slab of the other is wide, so both are within the lower one, and no slab between
    /// is narrower. Along a ray u is linear and the width convex, so a point between is at a height between theirs, where some slab is,
    /// and no farther from the axis than the farther of both.
    #[inline]
    pub(crate) fn is_run(&self, low: &Held, high: &Held) -> bool
        ensures first { IsTrue result → (r : RayOf) (line : Line) → r.sweep ≡ self.now → IsLineOf line r
            → IsHeldFirst low.now r → IsHeldFirst high.now r → IsRun r low.now.index high.now.index }
        ensures last { IsTrue result → (r : RayOf) (line : Line) → r.sweep ≡ self.now → IsLineOf line r
            → IsHeldLast low.now r → IsHeldLast high.now r → IsRun r low.now.index high.now.index }
    {
        // Reading a field of the move gives the prover its invariant: the stacks rise.
        let _rising = &self.depth;
        low.is_narrow(high) && high.is_narrow(low)
    }
}
