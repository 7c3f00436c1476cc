//! The keys of setups by name, and how a setup is refused.
#![tactic(auto)]

mod fault;
mod key;

pub use fault::{SetupEnd, SetupFault};
pub use key::KeyName;
