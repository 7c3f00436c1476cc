ghost use Rattle.std.specs.Prelude.{◌≡◌, ◌<◌, IsTrue};
ghost use Rattle.ray_grid.specs.Families.{first_axis, ray_axis, second_axis};
ghost use Rattle.ray_grid.specs.Turns.{IsTurn, old_axis};

use ray_grid::{Family, Turn};

/// The axis along which the rays of a family run.
pub(crate) fn ray_axis(family: Family) -> usize
    ensures axis { result ≡ ray_axis family }
    ensures three { result < 3 }
{
    match family {
        Family::X => 0,
        Family::Y => 1,
        Family::Z => 2,
    }
}

/// The axis of a ray's node `i`.
pub(crate) fn first_axis(family: Family) -> usize
    ensures axis { result ≡ first_axis family }
    ensures three { result < 3 }
{
    match family {
        Family::X => 1,
        Family::Y | Family::Z => 0,
    }
}

/// The axis of a ray's node `j`.
pub(crate) fn second_axis(family: Family) -> usize
    ensures axis { result ≡ second_axis family }
    ensures three { result < 3 }
{
    match family {
        Family::X | Family::Y => 2,
        Family::Z => 1,
    }
}

/// The family into which a turn takes a family.
pub(crate) fn new_family(turn: &Turn, family: Family) -> Family
    requires { IsTurn turn.now }
    ensures { old_axis turn.now (ray_axis result) ≡ ray_axis family }
{
    let old = ray_axis(family) as u32;
    if turn.axis[0] == old {
        Family::X
    } else if turn.axis[1] == old {
        Family::Y
    } else {
        Family::Z
    }
}
