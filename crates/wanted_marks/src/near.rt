ghost use Rattle.wanted_marks.specs.Nears.{IsNear};
ghost use Rattle.wanted_marks.specs.Rays.{MoveOf};

use width_bisect::Bounds;

/// The number of a low slab, to look from where none was looked for yet: most points that are met lie near the tip, but not right at it.
pub const LOW_SLAB: usize = 6;

/// The inner slab that was looked for last, at a sample of a move: the number above its own, and what it requires of a point there. Points
/// next to each other mostly reach the same slab, which is then not looked for again.
#[derive(Clone, Copy)]
pub struct Near {
    pub reached: usize,
    pub bounds: Bounds,
}

impl Near {
    /// Where none was looked for yet. The number is for what is looked for at other samples than the last.
    pub fn from_slab(reached: usize) -> Near
        ensures { (v : MoveOf) → IsNear result v }
    {
        Near {
            reached,
            bounds: Bounds::nowhere(),
        }
    }
}
