//! The inner and the outer stack of slabs of a cutter, between which the exact cutter lies.
#![tactic(auto)]

mod cone;
mod cutter;
mod laws;
mod pair;
mod profile;
mod stacks;

pub use cutter::Cutter;
pub use laws::cutter_laws;
pub use stacks::Stacks;
