//! Which points of a ray the holder above a cutter is sure to meet or may meet, and how many of stock, part and fixtures they are.
#![tactic(auto)]

mod counts;
mod flags;
mod holder;
mod marks;
mod point;

pub use counts::holder_counts;
pub use holder::Holder;
pub use job_counts::HolderCounts;
pub use marks::{HolderMarks, holder_marks};
