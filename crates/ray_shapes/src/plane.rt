ghost use Rattle.std.specs.Prelude.{◌≡◌, ℕ, ◌<◌, ◌≤◌, IsTrue, pos, negsuc, ◌+ℤ◌, ◌*ℤ◌, unsigned_abs};
ghost use Rattle.space.specs.Ranges.{IsBetween, IsPoint, metre};
ghost use Rattle.space.specs.Vectors.{at};
ghost use Rattle.ray_grid.specs.Selects.{Selects};
ghost use Rattle.ray_shapes.specs.Sizes.{IsTerm};

use crate::half_line::{IndexRange, Ramp};
use crate::line::Line;
use ray_grid::Family;

/// The points with `a * x + b * y + c * z <= d`, lengths in micrometres.
#[derive(Clone, Copy)]
pub struct Plane {
    pub a: i32,
    pub b: i32,
    pub c: i32,
    pub d: i64,
}

impl Plane {
    ghost use Rattle.ray_shapes.specs.Planes.{value_at, coefficient_of, plane_holds};
    ghost use Rattle.ray_shapes.specs.OnLine.{point_on};

    /// The part of an interval of a line's points that the plane holds.
    pub(crate) fn cut(&self, line: &Line, part: IndexRange) -> IndexRange
        requires some { part.lo < part.hi }
        requires within { part.hi ≤ line.now.points }
        ensures order { result.lo ≤ result.hi }
        ensures within { result.hi ≤ part.hi }
        ensures exact { Selects result.lo result.hi (λ l.
            (part.lo ≤ l) × (l < part.hi) × IsTrue (plane_holds self.now (point_on line.now l))) }
    {
        self.ramp(line).half_line(part)
    }

    /// The left side along a line, with the right side as its limit. A line runs along one axis, so the left side rises by
    /// that axis' coefficient times the step.
    fn ramp(&self, line: &Line) -> Ramp
        ensures start { IsTerm result.start }
        ensures rise { (l : ℕ) → l < line.now.points → IsTerm (result.slope *ℤ pos l) }
        ensures limit { result.limit ≡ self.now.d }
        ensures value { (l : ℕ) → value_at self.now (point_on line.now l) ≡ result.start +ℤ (result.slope *ℤ pos l) }
    {
        Ramp {
            start: self.value_on(&line.first),
            slope: self.rise(line),
            limit: self.d,
        }
    }

    /// The left side at a point within a metre of the origin.
    fn value_on(&self, point: &[i32; 3]) -> i64
        requires { IsPoint point.now }
        ensures value { result ≡ value_at self.now point.now }
        ensures small { IsTerm result }
    {
        term(&self.a, point, 0) + term(&self.b, point, 1) + term(&self.c, point, 2)
    }

    /// How much the left side rises from each point of a line to the next.
    fn rise(&self, line: &Line) -> i64
        ensures value { result ≡ coefficient_of self.now line.now.family *ℤ line.now.step }
        ensures small { (l : ℕ) → l < line.now.points → IsTerm (result *ℤ pos l) }
    {
        i64::from(self.coefficient(line.family)) * i64::from(line.step)
    }

    /// The coefficient of the axis along which a family's rays run.
    fn coefficient(&self, family: Family) -> i32
        ensures { result ≡ coefficient_of self.now family }
    {
        match family {
            Family::X => self.a,
            Family::Y => self.b,
            Family::Z => self.c,
        }
    }
}

/// A coefficient times a coordinate.
#[inline]
fn term(coefficient: &i32, point: &[i32; 3], axis: usize) -> i64
    requires axis { axis < 3 }
    requires near { unsigned_abs (at point.now axis) ≤ metre }
    ensures value { result ≡ coefficient.now *ℤ at point.now axis }
    ensures small { IsBetween (negsuc 2147483647999999) (pos 2147483648000000) result }
{
    i64::from(*coefficient) * i64::from(point[axis])
}
