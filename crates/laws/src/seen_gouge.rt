ghost use Rattle.std.specs.Prelude.{ℤ, List};
ghost use Rattle.laws.specs.SeenGouge.{BoxHoldsPoint, FirstIsLeast, GougeIsSeen};

use std::marker::Brand;

/// Any set of places, as a gouge is one.
pub trait Places {
    ghost holds: { List ℤ → Type 0 };
}

/// The set that a caller picks: all places, where it picks none.
impl Places for Brand {
    ghost holds = { λ _. Unit {0} };
}

/// The laws of the gouge that the lattice sees for sure: a contract, with nothing to run.
pub fn seen_gouge_laws<G: Places>()
    ensures first { FirstIsLeast }
    ensures holds { BoxHoldsPoint }
    ensures seen { GougeIsSeen G.holds }
{}
