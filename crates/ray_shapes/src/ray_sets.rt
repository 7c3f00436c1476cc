ghost use Rattle.std.specs.Prelude.{◌≡◌, Bool, List};

use std::marker::Model;
use vf_spans::Spans;

/// One set of points for each ray of a grid, in the order of the rays.
#[derive(Drop)]
pub struct RaySets {
    rays: Vec<Spans>,
}

impl Model for RaySets {
    ghost Value = { List (List Bool) };

    ghost view = { λ s. s.rays.items };
}

impl RaySets {
    /// The sets of a list. It takes no memory.
    pub fn new(rays: Vec<Spans>) -> RaySets
        ensures { result ≡ rays.items }
    {
        RaySets { rays }
    }

    /// The sets, in order.
    pub fn as_slice(&self) -> &[Spans]
        ensures { result.now ≡ self.now }
    {
        self.rays.as_slice()
    }
}
