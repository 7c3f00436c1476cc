ghost use Rattle.std.specs.Prelude.{◌≡◌, ◌<◌, ◌≤◌};
ghost use Rattle.bern_form.specs.Sizes.{scale_limit};
ghost use Rattle.ray_grid.specs.Lattice.{IsRay, points_of};
ghost use Rattle.ray_runs.specs.Open.{joined_stretch};

use crate::clear::OpenStretch;
use crate::likely::likely_sample;
use crate::missed::are_missed;
use crate::pair::Pair;
use axis_cells::{Pose, Sweep, cells_of};
use ray_grid::{Grid, Ray};

/// What is the same for all stretches of a search: the move, in `scale` cells; the points of a ray from one index to another, both
/// included; the scaled square of the diameter that the slabs are no wider than; and that stretches of 2^`stop` cells aren't halved.
#[derive(Drop)]
pub struct Searched<'a> {
    pub sweep: &'a Sweep,
    pub grid: &'a Grid,
    pub ray: &'a Ray,
    pub from: u32,
    pub to: u32,
    pub scale: u32,
    pub square: i64,
    pub stop: u32,
    ghost is_ray: { IsRay grid.now ray.now },
    ghost order: { from ≤ to },
    ghost within: { to < points_of grid.now ray.now.family },
    ghost few: { scale ≤ scale_limit },
    ghost some: { 0 < scale },
}

/// The least stretch that has what is open of both halves of one.
#[inline]
fn joined(
    early: Option<OpenStretch>,
    late: Option<OpenStretch>,
    whole: OpenStretch,
) -> Option<OpenStretch>
    ensures { result ≡ joined_stretch early late whole }
{
    match early {
        None => late,
        Some(early) => match late {
            None => Some(early),
            Some(_late) => Some(whole),
        },
    }
}

/// Whether a stretch is open at both ends. Both its halves are then open too, so the whole of it is.
#[inline]
fn are_open(start: &Pair, end: &Pair) -> bool {
    start.is_open() && end.is_open()
}

impl<'a> Searched<'a> {
    ghost use Rattle.std.specs.Prelude.{◌+◌, ◌^◌, ◌≤◌, IsTrue};
    ghost use Rattle.ray_grid.specs.Lattice.{point_of};
    ghost use Rattle.ray_runs.specs.Missed.{AreOutBeside};
    ghost use Rattle.ray_runs.specs.Open.{AreOutBut};
    ghost use Rattle.ray_runs.specs.Searched.{IsPairOf};

    /// Its first and its last point at the time `k / scale`.
    pub fn pair_at(&self, k: u32) -> Pair
        requires { k ≤ self.now.scale }
        ensures { IsPairOf self.now k result }
    {
        let first = Pose::at_sample(
            self.sweep,
            &self.grid.point(self.ray, self.from),
            k,
            self.scale,
        );
        let last = Pose::at_sample(
            self.sweep,
            &self.grid.point(self.ray, self.to),
            k,
            self.scale,
        );
        Pair::of_poses(first, last, self.square)
    }

    /// The part of the stretch between the sample `j` and the one 2^`levels` after it outside of which no slab that is no wider than the
    /// diameter is left, for all the points: none where they are clear throughout. Where that is not found by the stretch itself, both
    /// halves are searched, down to stretches of 2^`stop` cells, except where a sample shows that both are open.
    #[cycle(halves)]
    pub fn open_in(&self, start: &Pair, end: &Pair, j: u32, levels: u32) -> Option<OpenStretch>
        requires levels { levels ≤ 10 }
        requires cells { j + 2 ^ levels ≤ self.now.scale }
        requires start { IsPairOf self.now j start.now }
        requires end { IsPairOf self.now (j + 2 ^ levels) end.now }
        ensures { let x = self.now in
            AreOutBut result x.square x.sweep.now (point_of x.grid.now x.ray.now) x.scale x.from x.to j (j + 2 ^ levels) }
    {
        if are_missed(start, end, self.square) {
            return None;
        }
        let whole = OpenStretch { first: j, levels };
        if levels <= self.stop {
            return Some(whole);
        }
        if are_open(start, end) {
            return Some(whole);
        }
        let middle = j + cells_of(levels - 1);
        let pair = self.pair_at(middle);
        if pair.is_open() {
            return Some(whole);
        }
        let late = self.open_in(&pair, end, middle, levels - 1);
        let early = self.open_in(start, &pair, j, levels - 1);
        joined(early, late, whole)
    }

    /// Whether one cut of the move's time shows at once that all the points are clear: at the sample at which the middle one is likely to
    /// be nearest to the axis. Where that isn't shown the answer says nothing.
    pub fn are_clear_by_cut(&self, start: &Pair, end: &Pair) -> bool
        requires start { IsPairOf self.now 0 start.now }
        requires end { IsPairOf self.now self.now.scale end.now }
        ensures { let x = self.now in IsTrue result
            → AreOutBeside x.square x.sweep.now (point_of x.grid.now x.ray.now) x.scale x.from x.to 0 x.scale }
    {
        if are_open(start, end) {
            return false;
        }
        let point = self
            .grid
            .point(self.ray, self.from + (self.to - self.from) / 2);
        let k = likely_sample(self.sweep, &point, self.scale);
        let pair = self.pair_at(k);
        if pair.is_open() {
            return false;
        }
        if !are_missed(start, &pair, self.square) {
            return false;
        }
        are_missed(&pair, end, self.square)
    }
}
