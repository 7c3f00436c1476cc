//! The program of a self-test: moves that are generated from a number, all valid, without a file.
#![tactic(auto)]

mod draw;
mod place;
mod program;

pub use program::{MADE_MOVES, made_program};
