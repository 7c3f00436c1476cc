//! Boxes that hold all points which a part of a move may meet.
#![tactic(auto)]

mod around;
mod band;
mod band_terms;
mod bands;
mod bounds;
mod boxes;
mod change;
mod clip;
mod cut;
mod cylinder;
mod cylinder_bounds;
mod line;
mod narrow;
mod offsets;
mod point_box;
mod rise;
mod shared;
mod side;
mod side_bound;
mod side_direction;
mod size;
mod slab_step;
mod spread;
mod sweep_interval;
mod weight;

pub use around::cylinder_of;
pub use band::Band;
pub use boxes::push_boxes;
pub use cylinder::{BANDS, BoundingCylinder};
pub use point_box::PointBox;
