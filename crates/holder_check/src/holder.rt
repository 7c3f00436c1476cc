ghost use Rattle.std.specs.Prelude.{◌≡◌};

use cutter_slabs::Cutter;
use std::marker::Model;

/// The holder above the cutter of each move, a plain cylinder about the axis: its diameter, and its length from the cutter's upper end
/// upwards. Micrometres, with 1 <= diameter <= 200,000 and 1 <= length <= 299,999.
#[derive(Clone, Copy, PartialEq, Eq)]
pub struct Holder {
    pub diameter: i32,
    pub length: i32,
}

impl Model for Holder {
    ghost use Rattle.std.specs.Prelude.{pos, ◌≤ℤ◌, unsigned_abs};
    ghost use Rattle.cutter_slabs.specs.Fields.{fields_back};
    ghost use Rattle.holder_check.specs.Above.{HolderSize, IsHolder};

    ghost Value = { HolderSize };

    ghost view = { λ h. record { diameter = unsigned_abs h.diameter; length = unsigned_abs h.length } };

    ghost invariant = { λ h. (pos 0 ≤ℤ h.diameter) × (pos 0 ≤ℤ h.length)
        × IsHolder record { diameter = unsigned_abs h.diameter; length = unsigned_abs h.length } };

    ghost inverse = { λ h. record { diameter = pos h.diameter; length = pos h.length } };

    ghost inverse_ok = { λ h valid i.
        record { diameter = fields_back h.diameter valid.0 i; length = fields_back h.length valid.1 i } };
}

impl Holder {
    ghost use Rattle.std.specs.Prelude.{◌↔◌, IsTrue};
    ghost use Rattle.holder_check.specs.Above.{HolderFits, holder_cutter};

    /// Whether the holder fits above a cutter: together they are at most 300,000 micrometres high.
    pub fn fits(&self, cutter: &Cutter) -> bool
        ensures { IsTrue result ↔ HolderFits self.now cutter.now }
    {
        cutter.h + self.length <= 300_000
    }

    /// The holder above a cutter, as a cutter of its own: a plain cylinder whose base is the cutter's upper end.
    pub fn above(&self, cutter: &Cutter) -> Cutter
        requires { HolderFits self.now cutter.now }
        ensures { result ≡ holder_cutter self.now cutter.now }
    {
        Cutter {
            d: self.diameter,
            r: 0,
            h: cutter.h + self.length,
            flank: 0,
            base: cutter.h,
        }
    }
}
