ghost use Rattle.cutter_slabs.specs.Laws.{AnyWritingOfTime, BallPlaces, BallTipIsPoint, ConeIsStraight, ConePlaces};
ghost use Rattle.cutter_slabs.specs.Laws.{FlatIsCylinder, LowerIsInUpper, OwnHeightIsEnough, UpperIsLower, ZeroBaseIsTip};

/// The laws of the exact cutter: a contract, with nothing to run.
pub fn cutter_laws()
    ensures lower { LowerIsInUpper }
    ensures same { UpperIsLower }
    ensures times { AnyWritingOfTime }
    ensures base { ZeroBaseIsTip }
    ensures cylinder { FlatIsCylinder }
    ensures tip { BallTipIsPoint }
    ensures own_height { OwnHeightIsEnough }
    ensures straight { ConeIsStraight }
    ensures ball { BallPlaces }
    ensures cone { ConePlaces }
{}
