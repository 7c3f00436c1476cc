//! A counter of steps that takes no bytes.
#![tactic(auto)]

mod steps;

pub use steps::Steps;
