//! The verifier of cutter location files: its commands, from the words to the texts.
#![tactic(auto)]

pub mod arguments;
mod certificates;
mod commands;
mod job;
mod reply;
pub mod status;
pub mod top;
pub mod verdict;

pub use made_program::made_program;
