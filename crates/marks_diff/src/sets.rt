ghost use Rattle.std.specs.Prelude.{◌≡◌, ◌<◌};

use crate::case::Case;
use box_bisect::{RayMarks, mark_ray};
use cutter_slabs::Stacks;
use std::alloc::Global;
use std::marker::Brand;
use std::sync::ledger::{Blank, Ledger};
use vf_io::NoMemory;
use vf_steps::Steps;

/// The sets of a ray, with a counter that begins from a blank.
fn sets_from<L: Ledger>(
    alloc: Global,
    case: &Case,
    stacks: &Stacks,
    blank: Blank,
) -> Result<RayMarks, NoMemory>
    requires name { blank.name ≡ L.name }
    requires parts { blank.parts ≡ L.parts }
    requires some { 0 < L.parts }
{
    let mut steps: Steps<L> = Steps::new(blank);
    mark_ray(
        alloc,
        &case.grid,
        &case.ray,
        &case.sweep,
        stacks,
        case.depth,
        &mut steps,
    )
}

/// The sets of a ray, by halving boxes in time and along the ray.
pub(crate) fn sets_of(alloc: Global, case: &Case, stacks: &Stacks) -> Result<RayMarks, NoMemory> {
    sets_from::<Brand>(alloc, case, stacks, Blank::new(1))
}
