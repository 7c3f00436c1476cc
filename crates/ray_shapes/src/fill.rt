ghost use Rattle.std.specs.Prelude.{◌≡◌, ℕ, ◌+◌, ◌-◌, ◌<◌, ◌≤◌, ◌↔◌, ◌&&◌, nat_lt, IsTrue, IfOk, All, List, length};
ghost use Rattle.std.specs.Option.{IfSome};
ghost use Rattle.vf_spans.specs.Members.{has};
ghost use Rattle.ray_grid.specs.Lattice.{IsRay, points_of, point_of};
ghost use Rattle.ray_grid.specs.Selects.{Selects};
ghost use Rattle.ray_shapes.specs.OnLine.{point_on};
ghost use Rattle.ray_shapes.specs.declared.plane.Plane.{Plane};
ghost use Rattle.ray_shapes.specs.BodyParts.{IsPartOf, IsPlaneAt};
ghost use Rattle.ray_shapes.specs.Planes.{EndsInBox, in_body, in_bodies};
ghost use Rattle.ray_shapes.specs.Parts.{covers_some, InOrder};
ghost use Rattle.ray_shapes.specs.Sets.{HoldsPointsOf};

use crate::body::Body;
use crate::half_line::IndexRange;
use crate::line::Line;
use crate::plane::Plane;
use ray_grid::{Grid, Ray};
use std::alloc::Global;
use vf_io::NoMemory;
use vf_spans::Spans;

/// The points of a ray of the grid that lie in some of the bodies.
///
/// A body is the intersection of its planes, so on a ray it holds one interval of points. The intervals of
/// all bodies are put together in order: as they come, where that is their order already.
pub fn body_spans(alloc: Global, bodies: &[Body], grid: &Grid, ray: &Ray) -> Result<Spans, NoMemory>
    requires { IsRay grid.now ray.now }
    ensures { IfOk result (HoldsPointsOf grid.now ray.now (λ point. in_bodies bodies.now point.position)) }
{
    let line = Line::of(grid, ray);
    if let Some(set) = set_in_turn(alloc, bodies, &line)? {
        return Ok(set);
    }
    let mut parts = parts_in(alloc, bodies, &line)?;
    cover(alloc, line.points, &mut parts)
}

/// The part of a line that lies in a body of these planes.
fn part_in(planes: &[Plane], line: &Line) -> IndexRange
    ensures order { result.lo ≤ result.hi }
    ensures within { result.hi ≤ line.now.points }
    ensures exact { Selects result.lo result.hi (λ l. (l < line.now.points) × IsTrue (in_body planes.now (point_on line.now l))) }
{
    let mut part = IndexRange {
        lo: 0,
        hi: line.points,
    };
    for plane in planes {
        if part.lo >= part.hi {
            return part;
        }
        part = plane.cut(line, part);
    }
    part
}

/// The part of an interval that one plane more holds.
#[inline(always)]
fn part_with(plane: &Plane, line: &Line, part: IndexRange) -> IndexRange
    requires order { part.lo ≤ part.hi }
    requires within { part.hi ≤ line.now.points }
    ensures order { result.lo ≤ result.hi }
    ensures within { result.hi ≤ line.now.points }
    ensures exact { (planes : List Plane) (n : ℕ) → IsPlaneAt planes n plane.now → IsPartOf planes line.now n part
        → IsPartOf planes line.now (n + 1) result }
{
    if part.lo >= part.hi {
        return part;
    }
    plane.cut(line, part)
}

/// A plane with these coefficients, as far out as another.
#[inline(always)]
fn side(a: i32, b: i32, c: i32, other: &Plane) -> Plane
    ensures { result ≡ record { a = a; b = b; c = c; d = other.now.d } }
{
    Plane {
        a,
        b,
        c,
        d: other.d,
    }
}

/// The part of an interval that the sides of a box hold too, which are a body's last six planes. Their coefficients are known here, so
/// that nothing is multiplied.
#[inline(always)]
fn part_in_box(planes: &[Plane], line: &Line, part: IndexRange) -> IndexRange
    requires sides { EndsInBox planes.now }
    requires part { IsPartOf planes.now line.now (length planes.now - 6) part }
    ensures { IsPartOf planes.now line.now (length planes.now) result }
{
    let end = planes.len();
    let upper_x = side(1, 0, 0, &planes[end - 6]);
    let lower_x = side(-1, 0, 0, &planes[end - 5]);
    let upper_y = side(0, 1, 0, &planes[end - 4]);
    let lower_y = side(0, -1, 0, &planes[end - 3]);
    let upper_z = side(0, 0, 1, &planes[end - 2]);
    let lower_z = side(0, 0, -1, &planes[end - 1]);
    let part = part_with(&upper_x, line, part);
    let part = part_with(&lower_x, line, part);
    let part = part_with(&upper_y, line, part);
    let part = part_with(&lower_y, line, part);
    let part = part_with(&upper_z, line, part);
    part_with(&lower_z, line, part)
}

/// The part of a line that lies in a body.
#[inline(always)]
fn body_part(body: &Body, line: &Line) -> IndexRange
    ensures order { result.lo ≤ result.hi }
    ensures within { result.hi ≤ line.now.points }
    ensures exact { Selects result.lo result.hi (λ l. (l < line.now.points) × IsTrue (in_body body.now (point_on line.now l))) }
{
    let planes = body.planes();
    if !body.is_boxed() {
        return part_in(planes, line);
    }
    let part = part_in(&planes[..planes.len() - 6], line);
    part_in_box(planes, line, part)
}

/// The set of the parts of a line that lie in the bodies, in one walk over the bodies, where no part begins before the last stretch
/// of the parts before it. Of each part what lies beyond them is added. For other bodies it returns `None`, which costs only time.
fn set_in_turn(alloc: Global, bodies: &[Body], line: &Line) -> Result<Option<Spans>, NoMemory>
    ensures bound { IfOk result (λ found. IfSome found (λ s. length s ≡ line.now.points)) }
    ensures exact { IfOk result (λ found. IfSome found (λ s.
        (l : ℕ) → has s l ≡ (nat_lt l line.now.points && in_bodies bodies.now (point_on line.now l)))) }
{
    let mut set = Spans::new(alloc, line.points);
    // The set has each index from the first of the last stretch on and below its end, and none beyond it.
    let mut first = 0;
    let mut end = 0;
    for body in bodies {
        let part = body_part(body, line);
        if part.lo >= part.hi {
            continue;
        }
        if part.lo < first {
            return Ok(None);
        }
        let lo = part.lo.max(end);
        if lo >= part.hi {
            continue;
        }
        if end < lo {
            first = lo;
        }
        set.push_range(lo, part.hi)?;
        end = part.hi;
    }
    Ok(Some(set))
}

/// The parts of a line that lie in the bodies, those that are not empty.
fn parts_in(alloc: Global, bodies: &[Body], line: &Line) -> Result<Vec<IndexRange>, NoMemory>
    ensures within { IfOk result (λ v. All (λ part. part.hi ≤ line.now.points) v.items) }
    ensures exact { IfOk result (λ v.
        (l : ℕ) → covers_some v.items l ≡ (nat_lt l line.now.points && in_bodies bodies.now (point_on line.now l))) }
{
    let mut parts = Vec::new(alloc);
    for body in bodies {
        let part = body_part(body, line);
        if part.lo < part.hi {
            parts.push(part)?;
        }
    }
    Ok(parts)
}

/// The set of what the parts cover, in any order.
fn cover(alloc: Global, bound: u32, parts: &mut [IndexRange]) -> Result<Spans, NoMemory>
    requires { All (λ part. part.hi ≤ bound) parts.old }
    ensures bound { IfOk result (λ s. length s ≡ bound) }
    ensures covered { IfOk result (λ s. (i : ℕ) → has s i ≡ covers_some parts.old i) }
{
    parts.sort_unstable_by_key(|part| part.lo);
    join(alloc, bound, parts)
}

/// The set of what the parts cover, which are in the order of their first indices, in one walk: of
/// each part what lies beyond all parts before it is added.
fn join(alloc: Global, bound: u32, parts: &[IndexRange]) -> Result<Spans, NoMemory>
    requires order { InOrder parts.now }
    requires within { All (λ part. part.hi ≤ bound) parts.now }
    ensures bound { IfOk result (λ s. length s ≡ bound) }
    ensures covered { IfOk result (λ s. (i : ℕ) → has s i ≡ covers_some parts.now i) }
{
    let mut set = Spans::new(alloc, bound);
    let mut end = 0;
    for part in parts {
        let lo = part.lo.max(end);
        if lo >= part.hi {
            continue;
        }
        set.push_range(lo, part.hi)?;
        end = part.hi;
    }
    Ok(set)
}
