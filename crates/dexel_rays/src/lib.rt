//! The five sets of one ray: what a move adds to them, what it finds there, and taking it back exactly.
#![tactic(auto)]

mod delta;
mod dexel;
mod ones;
mod word_sets;

pub use delta::Delta;
pub use dexel::Dexel;
pub use job_counts::{Counts, Totals};
pub use word_sets::{WordDelta, WordSets};
