//! What is counted in a check of a job: the points that a move and its holder meet, the totals of a version, and answers to queries.
#![tactic(auto)]

mod counts;
mod holder;
mod totals;

pub use counts::Counts;
pub use holder::HolderCounts;
pub use totals::{Answer, PointState, Totals};
