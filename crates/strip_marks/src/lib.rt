//! What a move changes on the rays of a strip, and what it finds there.
#![tactic(auto)]

mod asked;
mod candidate_word;
mod change;
mod move_changes;
mod ray;
mod strip;
mod word;

pub use change::WordChange;
pub use move_changes::MoveChanges;
pub use strip::mark_strip;
