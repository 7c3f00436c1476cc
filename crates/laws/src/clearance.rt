ghost use Rattle.laws.specs.Clearance.{GrownHoldsNear, LengthIsLeast, ShrunkStaysInside};

/// The laws of bodies that are moved by a clearance: a contract, with nothing to run.
pub fn clearance_laws()
    ensures grown { GrownHoldsNear }
    ensures shrunk { ShrunkStaysInside }
    ensures least { LengthIsLeast }
{}
