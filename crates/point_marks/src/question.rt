/// A question about the moves of a file: a point in micrometres, the depth of the time cells, and the number of slabs that
/// a cutter is cut into.
#[derive(Clone, Copy)]
pub struct Question {
    pub point: [i32; 3],
    pub depth: u32,
    pub slabs: u32,
}
