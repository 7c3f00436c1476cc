use std::marker::Model;

/// One linear move of a cutter: the tip and the axis at both ends. Between them both are linear in time; the axis is not
/// normalised.
///
/// Coordinates are micrometres within 1,000,000 of the origin, axis components within 100,000. Both axes differ from zero and
/// they are not of opposite directions, so that the axis is zero at no time.
#[derive(Clone, Copy)]
pub struct Sweep {
    pub from: [i32; 3],
    pub to: [i32; 3],
    pub axis_from: [i32; 3],
    pub axis_to: [i32; 3],
}

impl Model for Sweep {
    ghost use Rattle.space.specs.Sweeps.{SweepOf, IsSweep};

    ghost Value = { SweepOf };

    ghost view = { λ s. record { from = s.from; to = s.to; axis_from = s.axis_from; axis_to = s.axis_to } };

    ghost invariant = { λ s. IsSweep record { from = s.from; to = s.to; axis_from = s.axis_from; axis_to = s.axis_to } };

    ghost inverse = { λ m. record { from = m.from; to = m.to; axis_from = m.axis_from; axis_to = m.axis_to } };
}
