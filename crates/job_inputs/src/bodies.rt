ghost use Rattle.std.specs.Prelude.{◌≡◌, neg_ℤ, All, IfOk};
ghost use Rattle.ray_grid.specs.Grids.{GridSize};
ghost use Rattle.ray_shapes.specs.Sets.{IsSolidOver};
ghost use Rattle.ray_shapes.specs.Turned.{IsTurnable};
ghost use Rattle.setup_file.specs.Shift.{shifted_of};
ghost use Rattle.setup_file.specs.Sound.{IsSetup};
ghost use Rattle.job_inputs.specs.Tasks.{part_as_it_lies};

use ray_shapes::{Bodies, Solid, TurnedBodies};
use setup_file::{Setup, shifted};
use std::alloc::Global;
use vf_io::NoMemory;

/// The part of a setup as it lies: lowered by its tolerance, and then turned where the setup says so.
pub fn part_as_it_lies(alloc: Global, setup: &Setup) -> Result<Solid, NoMemory>
    requires { IsSetup setup.now }
    ensures part { IfOk result (λ part. part ≡ part_as_it_lies setup.now) }
    ensures over { (grid : GridSize) → IfOk result (IsSolidOver grid) }
{
    let part = lowered_part(alloc, setup)?;
    match setup.turn {
        Some(turn) => Ok(Solid::Turned(TurnedBodies::new(alloc, part, turn)?)),
        None => Ok(Solid::Bodies(part)),
    }
}

/// The part of a setup, lowered by its tolerance, as it is given.
fn lowered_part(alloc: Global, setup: &Setup) -> Result<Bodies, NoMemory>
    requires { IsSetup setup.now }
    ensures part { IfOk result (λ part. part ≡ shifted_of (neg_ℤ setup.now.tolerance) setup.now.part) }
    ensures turnable { IfOk result (All (All IsTurnable)) }
{
    shifted(alloc, setup.part.as_slice(), -setup.tolerance)
}

/// The fixtures of a setup, raised by their clearance.
pub fn raised_fixture(alloc: Global, setup: &Setup) -> Result<Bodies, NoMemory>
    requires { IsSetup setup.now }
    ensures { IfOk result (λ fixture. fixture ≡ shifted_of setup.now.clearance setup.now.fixture) }
{
    shifted(alloc, setup.fixture.as_slice(), setup.clearance)
}
