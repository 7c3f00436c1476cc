ghost use Rattle.ray_grid.specs.RayLaws.{NumberIsPlace};

/// The law of a ray's number: a contract, with nothing to run.
pub fn number_laws()
    ensures { NumberIsPlace }
{}
