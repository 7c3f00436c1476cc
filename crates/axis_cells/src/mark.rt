/// What is known of a point and a move: not met, perhaps met, or removed.
#[derive(Clone, Copy, PartialEq, Eq)]
pub enum Mark {
    Clear,
    Possible,
    Removed,
}
