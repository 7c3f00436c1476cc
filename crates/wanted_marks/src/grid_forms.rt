ghost use Rattle.std.specs.Prelude.{◌≡◌, ◌≤◌, IsTrue};
ghost use Rattle.bern_form.specs.Sizes.{scale_limit};
ghost use Rattle.ray_grid.specs.Lattice.{per_node};
ghost use Rattle.wanted_marks.specs.GridForms.{AreGridForms, FitsStrip, IsStripSheet, beside_of, crossed_of, first_rays, rays_by};
ghost use Rattle.wanted_marks.specs.Widths.{IsAxisForms};

use crate::axis_forms::AxisForms;
use crate::moments::{eight_products, heights_moved, heights_times, moved, times};
use crate::scaled::{scaled_step, scaled_way};
use crate::sheet::{Sheet, moved4, times4};
use crate::step_forms::StepForms;
use axis_cells::Sweep;
use bern_form::Form4;
use moment_forms::{Moments, heights};
use ray_grid::{Family, Grid};

/// How many steps of a grid make its pitch.
fn steps_of(grid: &Grid) -> u32
    ensures { result ≡ per_node grid.now }
{
    grid.pitch.unsigned_abs() / grid.step.unsigned_abs()
}

/// The steps by which the strips of a family are laid out: one along the rays, one across, from a strip towards the next, and one from a
/// ray of a strip towards the next ray; with eight times the scalar products of what the first adds to the moment and what each of
/// the others adds.
#[derive(Drop)]
struct StripSteps<'a> {
    along: &'a StepForms,
    across: &'a StepForms,
    beside: &'a StepForms,
    along_across: &'a Form4,
    along_beside: &'a Form4,
}

/// The forms of a grid's points on a whole move: the moment of its first point and u, and what a step along x, y and z adds; and eight
/// times the scalar products of what each two of the steps add to the moment. A pitch is `per_node` steps, so the sheets of all strips
/// follow from it.
#[derive(Drop)]
pub struct GridForms {
    pub grid: Grid,
    pub per_node: u32,
    pub start: Moments,
    pub height: [i64; 3],
    pub x: StepForms,
    pub y: StepForms,
    pub z: StepForms,
    pub xy: Form4,
    pub yz: Form4,
    pub zx: Form4,
}

impl GridForms {
    /// Of a grid on a move of `scale` cells, at most 1024, on which the axis turns in this way.
    pub fn of_grid(grid: &Grid, sweep: &Sweep, axis_forms: &AxisForms, scale: u32) -> GridForms
        requires axis_forms { IsAxisForms axis_forms.now.first axis_forms.now.last axis_forms.now.n.c sweep.now scale }
        requires scale { scale ≤ scale_limit }
        ensures grid { result.grid ≡ grid.now }
        ensures forms { AreGridForms result sweep.now grid.now scale }
    {
        let from = scaled_way(scale, &sweep.from, &grid.origin);
        let to = scaled_way(scale, &sweep.to, &grid.origin);
        let start = Moments::between(&from, &to, &axis_forms.first, &axis_forms.last);
        let step = scaled_step(scale, grid.step);
        let x = StepForms::along(&[step, 0, 0], &start, &axis_forms.first, &axis_forms.last);
        let y = StepForms::along(&[0, step, 0], &start, &axis_forms.first, &axis_forms.last);
        let z = StepForms::along(&[0, 0, step], &start, &axis_forms.first, &axis_forms.last);
        GridForms {
            grid: *grid,
            per_node: steps_of(grid),
            start,
            height: heights(&from, &to, &axis_forms.first, &axis_forms.last),
            xy: Form4 {
                c: eight_products(&x.moments, &y.moments),
            },
            yz: Form4 {
                c: eight_products(&y.moments, &z.moments),
            },
            zx: Form4 {
                c: eight_products(&z.moments, &x.moments),
            },
            x,
            y,
            z,
        }
    }

    /// Whether they are those of this grid.
    #[inline]
    pub fn is_of(&self, grid: &Grid) -> bool
        ensures { IsTrue result → self.now.grid ≡ grid.now }
    {
        self.grid == *grid
    }

    /// The sheet of strip i of the rays whose strips are laid out by these steps.
    #[inline]
    fn sheet(&self, steps: &StripSteps<'_>, i: u32) -> Sheet
        requires { let rays = rays_by self.now steps.now.along.now steps.now.across.now steps.now.along_across.now in
            FitsStrip rays steps.now.beside.now steps.now.along_beside.now self.now.per_node i }
        ensures { let rays = rays_by self.now steps.now.along.now steps.now.across.now steps.now.along_across.now in
            IsStripSheet result rays steps.now.beside.now steps.now.along_beside.now self.now.per_node i }
    {
        let pitch = self.per_node;
        let across = i * pitch;
        Sheet {
            start: moved(&self.start, &steps.across.moments, across),
            side: times(&steps.beside.moments, pitch),
            first: moved4(&steps.along.first, steps.along_across, across),
            first_side: times4(steps.along_beside, pitch),
            second: steps.along.second,
            height: heights_moved(&self.height, &steps.across.height, across),
            height_step: steps.along.height,
            height_side: heights_times(&steps.beside.height, pitch),
        }
    }

    /// The steps by which the strips of a family are laid out.
    #[inline]
    fn steps(&self, family: Family) -> StripSteps<'_>
        ensures rays { rays_by self.now result.along.now result.across.now result.along_across.now ≡ first_rays self.now family }
        ensures beside { result.beside.now ≡ beside_of self.now family }
        ensures crossed { result.along_beside.now ≡ crossed_of self.now family }
    {
        match family {
            Family::X => StripSteps {
                along: &self.x,
                across: &self.y,
                beside: &self.z,
                along_across: &self.xy,
                along_beside: &self.zx,
            },
            Family::Y => StripSteps {
                along: &self.y,
                across: &self.x,
                beside: &self.z,
                along_across: &self.xy,
                along_beside: &self.yz,
            },
            Family::Z => StripSteps {
                along: &self.z,
                across: &self.x,
                beside: &self.y,
                along_across: &self.zx,
                along_beside: &self.yz,
            },
        }
    }

    /// The sheet of strip i of a family.
    #[inline]
    pub fn strip(&self, family: Family, i: u32) -> Sheet
        requires { FitsStrip (first_rays self.now family) (beside_of self.now family) (crossed_of self.now family) self.now.per_node i }
        ensures { let rays = first_rays self.now family in
            IsStripSheet result rays (beside_of self.now family) (crossed_of self.now family) self.now.per_node i }
    {
        self.sheet(&self.steps(family), i)
    }
}
