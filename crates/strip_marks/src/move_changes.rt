use crate::change::WordChange;
use job_counts::Counts;

/// What a move changes on a strip, ray by ray and word by word, and what it finds there.
#[derive(Drop)]
pub struct MoveChanges {
    pub changes: Vec<WordChange>,
    pub counts: Counts,
}
