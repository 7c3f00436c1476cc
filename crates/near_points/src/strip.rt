ghost use Rattle.std.specs.Prelude.{◌≡◌, ℕ, ◌+◌, ◌<◌, ◌≤◌};
ghost use Rattle.vf_spans.specs.Members.{in_range};
ghost use Rattle.vf_spans.specs.Words.{has_bit};

use crate::axis_offset::AxisOffset;
use crate::cylinder_test::CylinderTest;
use crate::offset::{offset_from, ray_axis_first, scaled, way_across};
use crate::ray_step::RayStep;
use crate::scan::are_all_beyond;
use crate::walk::kept_between;
use ray_grid::{Family, Grid, Ray};
use std::marker::Model;
use sweep_boxes::BoundingCylinder;
use vf_spans::bits::{bits_from, highest_bit, lowest_bit, lowest_bits};

/// The bits of the points of a range of a ray, given by its first one and the one after its last. Bit b is the point at the index
/// `first + b`.
#[inline]
fn bits_between(first: u32, range: (u32, u32)) -> u64
    requires from { first ≤ range.0 }
    requires to { range.1 ≤ first + 64 }
    ensures { (b : ℕ) → b < 64 → has_bit result b ≡ in_range (first + b) range }
{
    if range.1 <= range.0 {
        return 0;
    }
    bits_from(range.0 - first) & lowest_bits(range.1 - first)
}

/// A bounding cylinder, ready for the points of the rays of one strip of a grid: those of a family with the node i.
#[derive(Drop)]
pub struct CylinderStrip<'a> {
    cylinder: &'a BoundingCylinder,
    grid: &'a Grid,
    family: Family,
    i: u32,
    start: AxisOffset,
    across: AxisOffset,
    step: RayStep,
    test: CylinderTest,
}

impl<'a> Model for CylinderStrip<'a> {
    ghost use Rattle.near_points.specs.Rays.{CylinderStripOf};
    ghost use Rattle.near_points.specs.Ready.{IsReadyStrip};

    ghost Value = { CylinderStripOf };

    ghost view = { λ s. record { cylinder = s.cylinder.now; grid = s.grid.now; family = s.family; i = s.i } };

    ghost invariant = { λ s. IsReadyStrip s.start s.across s.step s.test
        record { cylinder = s.cylinder.now; grid = s.grid.now; family = s.family; i = s.i } };
}

impl<'a> CylinderStrip<'a> {
    ghost use Rattle.std.specs.Prelude.{◌≡◌, ℕ, ◌<◌, ◌≤◌, IsTrue, true};
    ghost use Rattle.ray_grid.specs.Families.{first_axis, second_axis};
    ghost use Rattle.ray_grid.specs.Lattice.{nodes_of, points_of};
    ghost use Rattle.vf_spans.specs.Members.{in_range};
    ghost use Rattle.vf_spans.specs.Words.{has_bit};
    ghost use Rattle.near_points.specs.Rays.{AreOnRay, IsHeldAt, IsHeldBit, IsKeptBit, cylinder_ray_at};

    /// For the rays of a family with the node i.
    pub fn new(
        cylinder: &'a BoundingCylinder,
        grid: &'a Grid,
        family: Family,
        i: u32,
    ) -> CylinderStrip<'a>
        requires { i < nodes_of grid.now (first_axis family) }
        ensures { result ≡ record { cylinder = cylinder.now; grid = grid.now; family = family; i = i } }
    {
        let (pitch, step) = (grid.pitch, grid.step);
        let scale = cylinder.scale;
        let point = grid.point(&Ray { family, i, j: 0 }, 0);
        let offset = offset_from(scale, &cylinder.tip, &point);
        let axis = ray_axis_first(family, &cylinder.axis);
        let across = way_across(family, scaled(scale, pitch));
        let side = ray_axis_first(family, &cylinder.side);
        let along = AxisOffset::of_offset(&[scaled(scale, step), 0, 0], &axis, &side);
        CylinderStrip {
            cylinder,
            grid,
            family,
            i,
            start: AxisOffset::of_offset(&ray_axis_first(family, &offset), &axis, &side),
            across: AxisOffset::of_offset(&across, &axis, &side),
            step: RayStep::of_axis_offset(&along),
            test: CylinderTest::of_cylinder(cylinder),
        }
    }

    /// Whether the cylinder may hold a point of a range of the ray with the node j: not where, by the two at its ends, all of them are too
    /// low for it where it is widest, or too high, or too far to one side.
    #[inline]
    pub fn may_hold(&self, j: u32, range: (u32, u32)) -> bool
        requires node { j < nodes_of self.now.grid (second_axis self.now.family) }
        requires some { range.0 < range.1 }
        requires on_ray { range.1 ≤ points_of self.now.grid self.now.family }
        ensures { (l : ℕ) → in_range l range ≡ true → IsHeldAt (cylinder_ray_at self.now j) l → IsTrue result }
    {
        let start = self.start.moved(&self.across, j);
        !are_all_beyond(&start, &self.step, &self.test, range.0, range.1 - 1)
    }

    /// Of the wanted points of a word of the ray with the node j all that the cylinder holds at each band, and none that it doesn't hold
    /// where it is widest: bit b is the point at the index `first + b`. Each wanted bit is a point of the ray.
    #[inline]
    pub fn held_points(&self, j: u32, first: u32, wanted: u64) -> u64
        requires node { j < nodes_of self.now.grid (second_axis self.now.family) }
        requires on_ray { AreOnRay (cylinder_ray_at self.now j) first wanted }
        ensures kept { (b : ℕ) → b < 64 → IsKeptBit (cylinder_ray_at self.now j) first wanted b → has_bit result b ≡ true }
        ensures held { (b : ℕ) → b < 64 → has_bit result b ≡ true → IsHeldBit (cylinder_ray_at self.now j) first wanted b }
    {
        if wanted == 0 {
            return 0;
        }
        self.some_held_points(j, first, wanted)
    }

    /// The same where some point is wanted. It is a function of its own so that the code that runs for each word stays small.
    #[inline(never)]
    fn some_held_points(&self, j: u32, first: u32, wanted: u64) -> u64
        requires node { j < nodes_of self.now.grid (second_axis self.now.family) }
        requires some { 0 < wanted }
        requires on_ray { AreOnRay (cylinder_ray_at self.now j) first wanted }
        ensures kept { (b : ℕ) → b < 64 → IsKeptBit (cylinder_ray_at self.now j) first wanted b → has_bit result b ≡ true }
        ensures held { (b : ℕ) → b < 64 → has_bit result b ≡ true → IsHeldBit (cylinder_ray_at self.now j) first wanted b }
    {
        let start = self.start.moved(&self.across, j);
        let l = first + lowest_bit(wanted);
        let m = first + highest_bit(wanted);
        let bands = &self.cylinder.bands;
        let kept = kept_between(&start, &self.step, &self.test, bands, l, m);
        bits_between(first, kept) & wanted
    }
}
