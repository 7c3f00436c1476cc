ghost use Rattle.std.specs.Prelude.{◌≡◌, ◌<◌};
ghost use Rattle.ray_grid.specs.Lattice.{IsRay, points_of};
ghost use Rattle.ray_grid.specs.Turns.{IsTurn};
ghost use Rattle.setup_turn.specs.Places.{IsNewLineOf};

use crate::axes::{new_family, ray_axis};
use crate::place::find_point;
use ray_grid::{Grid, Ray, Turn};

/// The new ray of an old one, found by one point of it: the index at which that point lies, and whether the new ray runs against the
/// old one.
#[derive(Clone, Copy)]
pub(crate) struct TurnedLine {
    pub ray: Ray,
    pub l: u32,
    pub reversed: bool,
}

/// The ray of the new grid on which point `first` of an old ray lies when it is turned.
pub(crate) fn turned_line(
    old: &Grid,
    new: &Grid,
    turn: &Turn,
    ray: &Ray,
    first: u32,
) -> Option<TurnedLine>
    requires turn { IsTurn turn.now }
    requires ray { IsRay old.now ray.now }
    requires point { first < points_of old.now ray.now.family }
    ensures { IsNewLineOf turn.now old.now new.now ray.now first result }
{
    let family = new_family(turn, ray.family);
    let place = turn.forth(old.point(ray, first));
    let found = find_point(new, family, &place)?;
    Some(TurnedLine {
        ray: found.ray,
        l: found.l,
        reversed: turn.neg[ray_axis(family)],
    })
}
