ghost use Rattle.std.specs.Prelude.{◌≤◌};

use bern_form::Slab;
use cutter_slabs::{Cutter, Stacks};
use std::alloc::Global;
use std::test::Fail;
use vf_io::NoMemory;

/// The heights of a slab and its diameter.
type Sizes = (i32, i32, i32);

/// Whether the slabs have these sizes.
fn are_slabs(found: &[Slab], want: &[Sizes]) -> bool {
    for (slab, sizes) in found.iter().zip(want) {
        if (slab.lo, slab.hi, slab.dia) != *sizes {
            return false;
        }
    }
    found.len() == want.len()
}

/// Whether the cutter, in this number of slabs, has these stacks.
fn are_stacks(
    alloc: Global,
    cutter: Cutter,
    slabs: u32,
    inner: &[Sizes],
    outer: &[Sizes],
) -> Result<bool, NoMemory>
    requires some { 1 ≤ slabs }
    requires few { slabs ≤ 256 }
{
    let stacks = Stacks::new(alloc, cutter, slabs)?;
    Ok(are_slabs(stacks.inner(), inner) && are_slabs(stacks.outer(), outer))
}

const BALL_INNER: [Sizes; 5] = [
    (0, 62, 0),
    (62, 250, 692),
    (250, 562, 1_322),
    (562, 1_000, 1_796),
    (1_000, 1_000, 2_000),
];

const BALL_OUTER: [Sizes; 5] = [
    (0, 62, 694),
    (62, 250, 1_324),
    (250, 562, 1_798),
    (562, 1_000, 2_000),
    (1_000, 1_000, 2_000),
];

const CONE_INNER: [Sizes; 3] = [
    (0, 4_115, 1_235),
    (4_115, 8_231, 1_665),
    (8_231, 12_347, 2_097),
];

const CONE_OUTER: [Sizes; 3] = [
    (0, 4_115, 1_667),
    (4_115, 8_231, 2_099),
    (8_231, 12_347, 2_531),
];

/// With ample memory there are stacks: of a ball cutter and of a cone. The tangent of 3 degrees lies between 0.052407 and 0.052408,
/// so at 4,115 the cone has widened by 215.6 on each side, at 8,231 by 431.3, and at 12,347 by 647.0.
#[test]
fn stacks_with_ample_memory(rt: HostRuntime) -> Result<(), Fail> {
    let ball = Cutter {
        d: 2_000,
        r: 1_000,
        h: 1_000,
        flank: 0,
        base: 0,
    };
    let is_ball = are_stacks(rt.alloc(), ball, 4, &BALL_INNER, &BALL_OUTER)?;
    assert!(rt; is_ball, "slabs of a ball");
    let cone = Cutter {
        d: 1_235,
        r: 0,
        h: 12_347,
        flank: 3,
        base: 0,
    };
    let is_cone = are_stacks(rt.alloc(), cone, 3, &CONE_INNER, &CONE_OUTER)?;
    assert!(rt; is_cone, "slabs of a cone");
    Ok(())
}
