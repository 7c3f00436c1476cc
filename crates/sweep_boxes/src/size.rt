ghost use Rattle.std.specs.Prelude.{◌≤◌, ◌≤ℤ◌, ℤ, unsigned_abs};
ghost use Rattle.cutter_slabs.specs.Rising.{IsRising};
ghost use Rattle.sweep_boxes.specs.Intervals.{AreAsLarge, AreFrom};
ghost use Rattle.sweep_boxes.specs.Limits.{place_limit};

use bern_form::Slab;

/// How wide and how high slabs are at most, and how high above the tip they begin at least.
#[derive(Drop)]
pub struct Size {
    pub widest: i32,
    pub highest: i32,
    pub lowest: i32,
}

/// The greater of two lengths.
#[inline]
fn longer(a: i32, b: i32) -> i32
    ensures first { a ≤ℤ result }
    ensures second { b ≤ℤ result }
    ensures least { (z : ℤ) → a ≤ℤ z → b ≤ℤ z → result ≤ℤ z }
{
    if a < b { b } else { a }
}

/// How high above the tip these slabs begin: the lowest is the first of them.
fn lowest_of(slabs: &[Slab]) -> i32
    requires rising { IsRising slabs.now }
    ensures from { AreFrom result slabs.now }
    ensures small { unsigned_abs result ≤ place_limit }
{
    if slabs.is_empty() {
        return 0;
    }
    let first = &slabs[0];
    first.lo
}

/// How wide and how high these slabs are at most, and how high they begin.
pub fn size_of(slabs: &[Slab]) -> Size
    requires rising { IsRising slabs.now }
    ensures large { AreAsLarge result.widest result.highest slabs.now }
    ensures widest { unsigned_abs result.widest ≤ place_limit }
    ensures highest { unsigned_abs result.highest ≤ place_limit }
    ensures from { AreFrom result.lowest slabs.now }
    ensures lowest { unsigned_abs result.lowest ≤ place_limit }
{
    let mut widest = 0;
    let mut highest = 0;
    for slab in slabs {
        widest = longer(widest, slab.dia);
        highest = longer(highest, slab.hi);
    }
    Size {
        widest,
        highest,
        lowest: lowest_of(slabs),
    }
}
