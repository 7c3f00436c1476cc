//! A small job for the tests of the crates above: a plan of two moves, its strips, and six queries with their answers.
#![tactic(auto)]

mod asked;
mod bodies;
mod fresh;
mod job;

pub use asked::{answers, queries};
pub use bodies::{boxed, stock};
pub use fresh::strips;
pub use job::{edits, plan};
