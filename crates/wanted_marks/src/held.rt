ghost use Rattle.std.specs.Prelude.{◌≡◌, int_le};

use axis_cells::Mark;
use width_bisect::{Bounds, Sample};

/// A point of a ray that an inner slab holds at the first sample of a move, or at the last one: its index, that sample, and what the slab
/// requires of a point there.
#[derive(Drop)]
pub struct Held {
    pub index: u32,
    pub sample: Sample,
    pub bounds: Bounds,
}

impl Held {
    /// Whether the point is no farther from the axis than another one's slab is wide.
    #[inline]
    pub fn is_narrow(&self, other: &Held) -> bool
        ensures { result ≡ int_le self.now.sample.width other.now.bounds.width }
    {
        self.sample.width <= other.bounds.width
    }
}

/// What is reported of a point: its mark, and what is known of it where an inner slab holds it at its last sample.
#[derive(Drop)]
pub struct Told {
    pub mark: Mark,
    pub held: Option<Held>,
}
