/// Which range of a strip is meant: that of its rays, by their numbers, or that of the points along them, by their indices.
#[derive(Clone, Copy)]
pub enum StripRange {
    Rays,
    Points,
}
