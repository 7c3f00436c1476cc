//! Why an input is refused, and what else stops a command before it has a report.
#![tactic(auto)]

mod fault;
mod stopped;

pub use fault::{Fault, Input};
pub use stopped::Stopped;
