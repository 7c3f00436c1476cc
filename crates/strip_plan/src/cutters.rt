ghost use Rattle.std.specs.Prelude.{◌≡◌, ◌≤◌, IsTrue, IfOk, OnOk, All, length, take};
ghost use Rattle.std.specs.Option.{IfSome};
ghost use Rattle.job_model.specs.Tasks.{IsJobMove};
ghost use Rattle.strip_plan.specs.Cutters.{HasSlabs, HasStacks, IsStackPlace};

use crate::plan_move::PlanMove;
use cutter_slabs::{Cutter, Stacks};
use std::alloc::Global;
use std::collections::BTreeMap;
use vf_io::NoMemory;

/// A cutter by its five numbers, so that cutters have an order.
#[derive(Clone, Copy, PartialEq, Eq, PartialOrd, Ord)]
struct Key {
    d: i32,
    r: i32,
    h: i32,
    flank: u32,
    base: i32,
}

/// The stacks of moves, each of `slabs`: one for each distinct cutter, and for each move the place of those of its cutter.
#[derive(Drop)]
pub(crate) struct Cutters {
    pub(crate) slabs: u32,
    pub(crate) stacks: Vec<Stacks>,
    pub(crate) places: Vec<usize>,
}

fn key_of(cutter: Cutter) -> Key {
    Key {
        d: cutter.d,
        r: cutter.r,
        h: cutter.h,
        flank: cutter.flank,
        base: cutter.base,
    }
}

/// Whether the stacks at a place are those of a cutter.
fn stand_at(stacks: &[Stacks], place: usize, cutter: Cutter, slabs: u32) -> bool
    requires { All (HasSlabs slabs) stacks.now }
    ensures { IsTrue result → IsStackPlace stacks.now cutter slabs place }
{
    if place >= stacks.len() {
        return false;
    }
    stacks[place].cutter() == cutter
}

/// The place of the stacks of a cutter, if they are there. The map says where to look; that they are the cutter's own is
/// tested, so nothing rests on the map.
fn known_place(
    places: &BTreeMap<Key, usize>,
    stacks: &[Stacks],
    cutter: Cutter,
    slabs: u32,
) -> Option<usize>
    requires { All (HasSlabs slabs) stacks.now }
    ensures { IfSome result (IsStackPlace stacks.now cutter slabs) }
{
    let place = *places.get(&key_of(cutter))?;
    if stand_at(stacks, place, cutter, slabs) {
        Some(place)
    } else {
        None
    }
}

/// The place of the stacks of a cutter. They are made where there are none.
fn place_of(
    alloc: Global,
    places: &mut BTreeMap<Key, usize>,
    stacks: &mut Vec<Stacks>,
    cutter: Cutter,
    slabs: u32,
) -> Result<usize, NoMemory>
    requires some { 1 ≤ slabs }
    requires few { slabs ≤ 256 }
    requires all { All (HasSlabs slabs) stacks.old.items }
    ensures all { OnOk result (All (HasSlabs slabs) stacks.new.items) }
    ensures kept { OnOk result (take (length stacks.old.items) stacks.new.items ≡ stacks.old.items) }
    ensures place { IfOk result (IsStackPlace stacks.new.items cutter slabs) }
{
    if let Some(place) = known_place(places, stacks, cutter, slabs) {
        return Ok(place);
    }
    let place = stacks.len();
    stacks.push(Stacks::new(alloc, cutter, slabs)?)?;
    places.insert(key_of(cutter), place)?;
    Ok(place)
}

/// The stacks of moves, with `slabs` for each cutter. Reading a field of each move gives the prover its invariant. Fails only when out
/// of memory.
pub(crate) fn cutters_of(alloc: Global, moves: &[PlanMove], slabs: u32) -> Result<Cutters, NoMemory>
    requires some { 1 ≤ slabs }
    requires few { slabs ≤ 256 }
    ensures slabs { IfOk result (λ cutters. cutters.slabs ≡ slabs) }
    ensures stacks { IfOk result (λ cutters. HasStacks slabs moves.now cutters.stacks.items cutters.places.items (length moves.now)) }
    ensures valid { OnOk result (All IsJobMove moves.now) }
{
    let mut known = BTreeMap::new(alloc);
    let mut stacks = Vec::new(alloc);
    let mut places = Vec::with_capacity(alloc, moves.len())?;
    for next in moves {
        let place = place_of(alloc, &mut known, &mut stacks, next.cutter, slabs)?;
        places.push(place)?;
    }
    Ok(Cutters {
        slabs,
        stacks,
        places,
    })
}
