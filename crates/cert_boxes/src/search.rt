ghost use Rattle.std.specs.Prelude.{◌≡◌, ℕ, ◌<◌, ◌≤◌, pos, IfOk, OnOk, length, [], slice_index_or, nat_le, nat_lt, ◌&&◌};
ghost use Rattle.std.specs.List.{flat_map};
ghost use Rattle.vf_spans.specs.Members.{has};
ghost use Rattle.cutter_slabs.specs.Stacks.{reach_of};
ghost use Rattle.ray_grid.specs.Lattice.{IsRay, points_of};
ghost use Rattle.ray_grid.specs.Points.{lattice_of, point_in, points_on};
ghost use Rattle.ray_grid.specs.Strips.{ray_number, strip_at, strips_of};
ghost use Rattle.ray_shapes.specs.Sets.{GivesSolid};
ghost use Rattle.cert_boxes.specs.Covering.{wants_cover};
ghost use Rattle.cert_boxes.specs.Rows.{AreRowsAlike, covers_throughout};
ghost use Rattle.cert_boxes.specs.Search.{AreReached, IsFirstIndex, IsFirstPlace, IsFirstOn};
ghost use Rattle.cert_boxes.specs.Tasks.{cert_task};

use crate::row::Row;
use axis_cells::Sweep;
use cutter_slabs::Stacks;
use ray_grid::{Grid, Ray};
use ray_shapes::RayShape;
use std::alloc::Global;
use vf_io::NoMemory;
use vf_spans::Spans;

/// The indices from one on and below another.
fn range_of(alloc: Global, range: (u32, u32), bound: u32) -> Result<Spans, NoMemory>
    requires order { range.0 ≤ range.1 }
    requires within { range.1 ≤ bound }
    ensures bound { IfOk result (λ set. length set ≡ bound) }
    ensures exact { IfOk result (λ set. (l : ℕ) → has set l ≡ (nat_le range.0 l && nat_lt l range.1)) }
{
    let mut set = Spans::new(alloc, bound);
    if range.0 < range.1 {
        set.push_range(range.0, range.1)?;
    }
    Ok(set)
}

/// The least index of a set.
fn first_of(set: &Spans) -> Option<u32>
    ensures { IsFirstIndex set.now result }
{
    if set.ranges() == 0 {
        return None;
    }
    let (first, _) = set.range(0);
    Some(first)
}

/// The indices of a ray's points in reach of a move of a cutter: the first, and the first one past them.
fn window_on(sweep: &Sweep, stacks: &Stacks, grid: &Grid, ray: &Ray) -> (u32, u32)
    requires { IsRay grid.now ray.now }
    ensures order { result.0 ≤ result.1 }
    ensures within { result.1 ≤ points_of grid.now ray.now.family }
    ensures exact { AreReached (pos (reach_of stacks.now.cutter)) sweep.now grid.now ray.now result.0 result.1 }
{
    let range = grid.window(ray, sweep.from, sweep.to, stacks.reach());
    range
}

/// The points of a ray that have to be covered.
pub fn wanted_on<A: Fn(&Ray) -> Result<Spans, NoMemory>, B: Fn(&Ray) -> Result<Spans, NoMemory>>(
    alloc: Global,
    sweep: &Sweep,
    stacks: &Stacks,
    part: &RayShape<A>,
    fixture: &RayShape<B>,
    ray: &Ray,
) -> Result<Spans, NoMemory>
    requires ray { IsRay part.now.grid ray.now }
    requires part { GivesSolid A.Fn part.now.grid part.now }
    requires fixture { GivesSolid B.Fn part.now.grid fixture.now }
    ensures bound { IfOk result (λ set. length set ≡ points_of part.now.grid ray.now.family) }
    ensures exact { let task = cert_task sweep.now stacks.now.cutter part.now.grid part.now.solid.value fixture.now.solid.value in
        IfOk result (λ set. (l : ℕ) → l < points_of part.now.grid ray.now.family
        → has set l ≡ wants_cover task (point_in part.now.grid ray.now l)) }
{
    let window = window_on(sweep, stacks, &part.grid, ray);
    let near = range_of(alloc, window, part.grid.points(ray.family))?;
    if window.0 == window.1 {
        return Ok(near);
    }
    let of_part = part.fill(ray)?;
    let of_fixture = fixture.fill(ray)?;
    let guarded = of_part.union(&of_fixture)?;
    let wanted = near.meet(&guarded)?;
    Ok(wanted)
}

/// The indices below a bound that the row of a number covers: none where no line has a ray of this number or a greater one.
fn cover_row(alloc: Global, rows: &mut [Row], number: u32, bound: u32) -> Result<Spans, NoMemory>
    ensures bound { IfOk result (λ set. length set ≡ bound) }
    ensures exact { let row = slice_index_or rows.old number [] in
        IfOk result (λ set. (l : ℕ) → l < bound → has set l ≡ covers_throughout row l) }
    ensures alike { OnOk result (AreRowsAlike rows.new rows.old) }
{
    let at = number as usize;
    if rows.len() <= at {
        return Ok(Spans::new(alloc, bound));
    }
    let set = rows[at].cover(alloc, bound)?;
    Ok(set)
}

/// The first point of a ray that has to be covered and is not by the row of its lines.
fn first_on<A: Fn(&Ray) -> Result<Spans, NoMemory>, B: Fn(&Ray) -> Result<Spans, NoMemory>>(
    alloc: Global,
    sweep: &Sweep,
    stacks: &Stacks,
    part: &RayShape<A>,
    fixture: &RayShape<B>,
    rows: &mut [Row],
    ray: &Ray,
) -> Result<Option<u32>, NoMemory>
    requires ray { IsRay part.now.grid ray.now }
    requires part { GivesSolid A.Fn part.now.grid part.now }
    requires fixture { GivesSolid B.Fn part.now.grid fixture.now }
    ensures first { let task = cert_task sweep.now stacks.now.cutter part.now.grid part.now.solid.value fixture.now.solid.value in
        IfOk result (IsFirstOn task (slice_index_or rows.old (ray_number part.now.grid ray.now) []) ray.now) }
    ensures alike { OnOk result (AreRowsAlike rows.new rows.old) }
{
    let wanted = wanted_on(alloc, sweep, stacks, part, fixture, ray)?;
    if wanted.is_empty() {
        return Ok(None);
    }
    let number = part.grid.ray_number(ray);
    let covered = cover_row(alloc, rows, number, wanted.bound())?;
    let left = wanted.minus(&covered)?;
    Ok(first_of(&left))
}

/// The first point of a strip that has to be covered and is not.
fn first_in<A: Fn(&Ray) -> Result<Spans, NoMemory>, B: Fn(&Ray) -> Result<Spans, NoMemory>>(
    alloc: Global,
    sweep: &Sweep,
    stacks: &Stacks,
    part: &RayShape<A>,
    fixture: &RayShape<B>,
    rows: &mut [Row],
    strip: u32,
) -> Result<Option<(Ray, u32)>, NoMemory>
    requires strip { strip < length (strips_of part.now.grid) }
    requires part { GivesSolid A.Fn part.now.grid part.now }
    requires fixture { GivesSolid B.Fn part.now.grid fixture.now }
    ensures first { let task = cert_task sweep.now stacks.now.cutter part.now.grid part.now.solid.value fixture.now.solid.value in
        IfOk result (IsFirstPlace task rows.old (flat_map (points_on part.now.grid) (strip_at part.now.grid strip))) }
    ensures alike { OnOk result (AreRowsAlike rows.new rows.old) }
{
    for n in 0..part.grid.strip_len(strip) {
        let ray = part.grid.strip_ray(strip, n);
        let found = first_on(alloc, sweep, stacks, part, fixture, rows, &ray)?;
        match found {
            Some(l) => return Ok(Some((ray, l))),
            None => {}
        }
    }
    Ok(None)
}

/// The first point of the lattice that has to be covered and is not by the rows of a certificate's lines.
pub fn first_missed<A: Fn(&Ray) -> Result<Spans, NoMemory>, B: Fn(&Ray) -> Result<Spans, NoMemory>>(
    alloc: Global,
    sweep: &Sweep,
    stacks: &Stacks,
    part: &RayShape<A>,
    fixture: &RayShape<B>,
    rows: &mut [Row],
) -> Result<Option<(Ray, u32)>, NoMemory>
    requires part { GivesSolid A.Fn part.now.grid part.now }
    requires fixture { GivesSolid B.Fn part.now.grid fixture.now }
    ensures { let task = cert_task sweep.now stacks.now.cutter part.now.grid part.now.solid.value fixture.now.solid.value in
        IfOk result (IsFirstPlace task rows.old (lattice_of part.now.grid)) }
{
    for strip in 0..part.grid.strips() {
        let found = first_in(alloc, sweep, stacks, part, fixture, rows, strip)?;
        match found {
            Some(place) => return Ok(Some(place)),
            None => {}
        }
    }
    Ok(None)
}
