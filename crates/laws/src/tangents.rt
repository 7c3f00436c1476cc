ghost use Rattle.laws.specs.Tangents.{TableIsTrue};

/// The law of the table of flank angles: a contract, with nothing to run.
pub fn tangent_laws()
    ensures { TableIsTrue }
{}
