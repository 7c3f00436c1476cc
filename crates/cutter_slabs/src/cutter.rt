ghost use Rattle.std.specs.Prelude.{◌≡◌};

use std::marker::Model;

/// A flat, bull-nose, ball or conical cutter by its diameter `d` at the tip, corner radius `r`, height `h` above the tip, flank
/// angle `flank`, in whole degrees from the axis, and `base`, the height above the tip at which it begins: 0 for each cutter of a
/// file. Where the angle is 0 it is an APT cutter whose corner touches the bottom plane and the flank; a greater angle makes a
/// cone that widens upwards. Micrometres, with 1 <= d <= 200,000, 0 <= 2r <= d, 1 <= h <= 300,000, r <= h, an angle that
/// `space::is_flank` knows, no corner under a greater angle than 0, at most 200,000 wide at the top, 0 <= base < h, and another
/// base than 0 only where radius and angle are 0.
#[derive(Clone, Copy, PartialEq, Eq)]
pub struct Cutter {
    pub d: i32,
    pub r: i32,
    pub h: i32,
    pub flank: u32,
    pub base: i32,
}

impl Model for Cutter {
    ghost use Rattle.std.specs.Prelude.{pos, ◌≤ℤ◌, unsigned_abs};
    ghost use Rattle.cutter_slabs.specs.Cutter.{CutterSize, IsCutter};
    ghost use Rattle.cutter_slabs.specs.Fields.{fields_back};

    ghost Value = { CutterSize };

    ghost view = { λ c. record {
      d = unsigned_abs c.d;
      r = unsigned_abs c.r;
      h = unsigned_abs c.h;
      flank = c.flank;
      base = unsigned_abs c.base;
    } };

    ghost invariant = { λ c. (pos 0 ≤ℤ c.d) × (pos 0 ≤ℤ c.r) × (pos 0 ≤ℤ c.h) × (pos 0 ≤ℤ c.base)
        × IsCutter record {
          d = unsigned_abs c.d;
          r = unsigned_abs c.r;
          h = unsigned_abs c.h;
          flank = c.flank;
          base = unsigned_abs c.base;
        } };

    ghost inverse = { λ c. record { d = pos c.d; r = pos c.r; h = pos c.h; flank = c.flank; base = pos c.base } };

    ghost inverse_ok = { λ c valid i.
        record {
          d = fields_back c.d valid.0 i;
          r = fields_back c.r valid.1 i;
          h = fields_back c.h valid.2 i;
          flank = c.flank;
          base = fields_back c.base valid.3 i;
        } };
}

impl Cutter {
    ghost use Rattle.cutter_slabs.specs.Cutter.{IsCutter, top_diameter};

    pub(crate) fn diameter(&self) -> u32
        ensures value { result ≡ self.now.d }
        ensures valid { IsCutter self.now }
    {
        self.d as u32
    }

    pub(crate) fn corner_radius(&self) -> u32
        ensures value { result ≡ self.now.r }
        ensures valid { IsCutter self.now }
    {
        self.r as u32
    }

    pub(crate) fn height(&self) -> u32
        ensures value { result ≡ self.now.h }
        ensures valid { IsCutter self.now }
    {
        self.h as u32
    }

    /// How high above the tip it begins.
    pub(crate) fn base(&self) -> u32
        ensures value { result ≡ self.now.base }
        ensures valid { IsCutter self.now }
    {
        self.base as u32
    }

    /// The diameter at the top.
    pub(crate) fn top_diameter(&self) -> u32
        ensures value { result ≡ top_diameter self.now }
        ensures valid { IsCutter self.now }
    {
        space::top_diameter(self.diameter(), self.height(), self.flank) as u32
    }
}
