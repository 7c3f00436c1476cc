ghost use Rattle.laws.specs.UpperReading.{LowerAtSomeTime, UpperAlone, UpperAtSomeTime};

/// The laws of the two readings of a cutter: a contract, with nothing to run.
pub fn upper_reading_laws()
    ensures upper { UpperAtSomeTime }
    ensures lower { LowerAtSomeTime }
    ensures apart { UpperAlone }
{}
