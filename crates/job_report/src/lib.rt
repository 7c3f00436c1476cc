//! What is reported of a job: the task, what is found of each move that is left, the answers and the totals, and when that is true.
#![tactic(auto)]

mod facts;

pub use facts::{Facts, Found};
