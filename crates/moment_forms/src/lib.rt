//! Moments of points about a moving axis, and heights along it, as forms between two samples.
#![tactic(auto)]

mod heights_between;
mod moments;

pub use heights_between::{heights, total};
pub use moments::{Moments, height, moment, product};
