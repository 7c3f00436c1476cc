/// A box along the axes: the points whose coordinates are from `low` to `high` along each axis, both included. Micrometres. It has
/// none where a low end is above the high one.
#[derive(Clone, Copy)]
pub struct PointBox {
    pub low: [i32; 3],
    pub high: [i32; 3],
}
