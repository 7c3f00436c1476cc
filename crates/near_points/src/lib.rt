//! Which points of a word of 64 points of a ray a bounding cylinder holds.
#![tactic(auto)]

mod axis_offset;
mod cylinder_test;
mod offset;
mod ray_step;
mod scan;
mod strip;
mod trim;
mod walk;
mod wide;

pub use strip::CylinderStrip;
