//! The core over every list of steps: turns of strips, and queries, each at a version of its own.
#![tactic(auto)]

mod ahead;
mod asking;
mod playing;
mod step;
mod turning;

pub use ahead::AheadStrip;
pub use asking::state_at;
pub use job_counts::Answer;
pub use playing::play;
pub use step::Step;
pub use turning::{raise, turn_strip};
