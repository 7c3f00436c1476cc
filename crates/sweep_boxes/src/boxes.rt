ghost use Rattle.std.specs.Prelude.{◌≡◌, ◌+◌, ◌*◌, ◌<◌, ◌≤◌, ◌^◌, ◌≤ℤ◌, List, ℤ, pos, length, take, true, unsigned_abs, OnOk};
ghost use Rattle.space.specs.Ranges.{IsWithin};
ghost use Rattle.space.specs.Vectors.{at};
ghost use Rattle.bern_form.specs.Between.{is_unexcluded_between};
ghost use Rattle.bern_form.specs.Slab.{SlabSize};
ghost use Rattle.cutter_slabs.specs.Stacks.{outer_stack};
ghost use Rattle.cutter_marks.specs.MarkBy.{is_possible_by};
ghost use Rattle.sweep_boxes.specs.Boxes.{IsInBox};
ghost use Rattle.sweep_boxes.specs.Covers.{CoverParts, IsInSome};
ghost use Rattle.sweep_boxes.specs.Intervals.{AreAsLarge, AreFrom};
ghost use Rattle.sweep_boxes.specs.Limits.{most_level, place_limit};

use crate::clip::clip_to_reach;
use crate::cut::{interval_of, parts_of};
use crate::narrow::narrowed;
use crate::point_box::PointBox;
use crate::size::{Size, size_of};
use axis_cells::Sweep;
use cutter_slabs::Stacks;
use vf_io::NoMemory;

/// The box of those points of a region that slabs of a size may be left at on part `cell` of 2^`level`. What is behind the tip, above
/// and beside depends on how far the region reaches, so it is narrowed once more by the smaller box.
fn part_box(sweep: &Sweep, size: &Size, level: u32, cell: u32, region: &PointBox) -> PointBox
    requires level { level ≤ most_level }
    requires cell { cell < 2 ^ level }
    requires widest { unsigned_abs size.now.widest ≤ place_limit }
    requires highest { unsigned_abs size.now.highest ≤ place_limit }
    requires lowest { unsigned_abs size.now.lowest ≤ place_limit }
    requires low { IsWithin place_limit region.now.low }
    requires high { IsWithin place_limit region.now.high }
    ensures kept { (slabs : List SlabSize) (p : List ℤ) → AreAsLarge size.now.widest size.now.highest slabs
        → AreFrom size.now.lowest slabs → IsInBox region.now p
        → is_unexcluded_between slabs sweep.now p cell (cell + 1) (2 ^ level) ≡ true → IsInBox result p }
    ensures within { (p : List ℤ) → IsInBox result p → IsInBox region.now p }
{
    let interval = interval_of(sweep, level, cell);
    let once = narrowed(&interval, size.widest, size.highest, size.lowest, region);
    narrowed(&interval, size.widest, size.highest, size.lowest, &once)
}

/// How far two ends are apart along one of the three axes.
#[inline]
fn passed_along(from: &[i32; 3], to: &[i32; 3], i: usize) -> i32
    requires i { i < 3 }
    requires from { unsigned_abs (at from.now i) ≤ 1000000 }
    requires to { unsigned_abs (at to.now i) ≤ 1000000 }
{
    if from[i] < to[i] {
        to[i] - from[i]
    } else {
        from[i] - to[i]
    }
}

/// How often a way is halved until it is at most half of a width, and at most `most` times.
fn halvings(way: i32, width: i32, most: u32) -> u32
    ensures { result ≤ most }
{
    if most == 0 || way <= width / 2 {
        return 0;
    }
    halvings(way / 2, width, most - 1) + 1
}

/// How often the time of a move is halved, so that on a part the tip passes at most half of the cutter's width along each axis. Any
/// number that the depth allows is right; it only decides how closely the boxes lie about the cutter.
fn level_of(sweep: &Sweep, size: &Size, depth: u32) -> u32
    ensures deep { result ≤ depth }
    ensures few { result ≤ most_level }
{
    let _valid = &sweep.from;
    let x = passed_along(&sweep.from, &sweep.to, 0);
    let y = passed_along(&sweep.from, &sweep.to, 1);
    let z = passed_along(&sweep.from, &sweep.to, 2);
    halvings(x.max(y).max(z), size.widest, depth.min(6))
}

/// Pushes boxes that hold each point of a region that may be possible by a move: one for each of 2^level parts of its time.
fn push_parts(
    boxes: &mut Vec<PointBox>,
    sweep: &Sweep,
    size: &Size,
    level: u32,
    region: &PointBox,
) -> Result<(), NoMemory>
    requires level { level ≤ most_level }
    requires widest { unsigned_abs size.now.widest ≤ place_limit }
    requires highest { unsigned_abs size.now.highest ≤ place_limit }
    requires lowest { unsigned_abs size.now.lowest ≤ place_limit }
    requires low { IsWithin place_limit region.now.low }
    requires high { IsWithin place_limit region.now.high }
    ensures cover { (slabs : List SlabSize) → AreAsLarge size.now.widest size.now.highest slabs → AreFrom size.now.lowest slabs
        → OnOk result (CoverParts boxes.new.items (length boxes.old.items) (2 ^ level) region.now slabs sweep.now (2 ^ level)) }
    ensures kept { take (length boxes.old.items) boxes.new.items ≡ boxes.old.items }
{
    for cell in 0..parts_of(level) {
        boxes.push(part_box(sweep, size, level, cell, region))?;
    }
    Ok(())
}

/// Pushes boxes that hold each point of a region that is possible by a move of a cutter, with the cells of a depth. Fails only
/// when out of memory; what was there stays.
pub fn push_boxes(
    boxes: &mut Vec<PointBox>,
    sweep: &Sweep,
    stacks: &Stacks,
    depth: u32,
    region: &PointBox,
) -> Result<(), NoMemory>
    requires depth { depth ≤ 10 }
    requires low { IsWithin place_limit region.now.low }
    requires high { IsWithin place_limit region.now.high }
    ensures covered { (p : List ℤ) → IsInBox region.now p
        → is_possible_by stacks.now.cutter stacks.now.slabs sweep.now p (2 ^ depth) ≡ true
        → OnOk result (IsInSome boxes.new.items (length boxes.old.items) p) }
    ensures kept { take (length boxes.old.items) boxes.new.items ≡ boxes.old.items }
{
    let size = size_of(stacks.outer());
    let level = level_of(sweep, &size, depth);
    let near = clip_to_reach(&sweep.from, &sweep.to, stacks.reach(), region);
    push_parts(boxes, sweep, &size, level, &near)
}
