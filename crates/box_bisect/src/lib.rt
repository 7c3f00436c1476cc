//! The marks of a point and of a ray by halving the time of a move, with their tests counted.
#![tactic(auto)]

mod compare;
mod halves;
mod held;
mod joined;
mod limits;
mod point;
mod ray;
mod search;
mod slab_search;
mod stretch;

pub use point::{mark_point, mark_point_uncounted};
pub use ray::{RayMarks, mark_ray};
