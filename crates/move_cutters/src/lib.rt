//! The cutter that each move of a program is made with, and its motion.
#![tactic(auto)]

mod cutters;

pub use cutters::{CutterDefaults, cutter_of, low_cutter, size, sweep_of};
