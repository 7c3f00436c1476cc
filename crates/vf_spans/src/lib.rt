//! Sets of indices below a bound, kept as ranges or as words of 64 flags, with union, difference and intersection.
#![tactic(auto)]

pub mod bits;
mod edges;
mod merge;
mod spans;
mod stretches;
mod word_list;
mod words;

pub use spans::Spans;
pub use words::Words;
