use std::marker::Model;

/// A slab of a cutter: the heights above the tip from `lo` to `hi`, both included, as far as half of `dia` from the axis,
/// boundary included. Micrometres, with 0 <= lo <= hi <= 300,000 and 0 <= dia <= 200,000.
#[derive(Clone, Copy)]
pub struct Slab {
    pub lo: i32,
    pub hi: i32,
    pub dia: i32,
}

impl Model for Slab {
    ghost use Rattle.bern_form.specs.Slab.{SlabSize, IsSlab};

    ghost Value = { SlabSize };

    ghost view = { λ s. record { lo = s.lo; hi = s.hi; dia = s.dia } };

    ghost invariant = { λ s. IsSlab record { lo = s.lo; hi = s.hi; dia = s.dia } };

    ghost inverse = { λ s. record { lo = s.lo; hi = s.hi; dia = s.dia } };
}
