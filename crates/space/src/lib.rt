//! Points, ranges, motion, reach and flank angles over plain whole numbers, vectors and roots, and the laws of their products.
#![tactic(auto)]

mod flank;
mod reach;
mod root;
mod vector;

pub use flank::{Flank, is_flank, least_widening, most_widening, top_diameter};
pub use reach::{is_in_reach, is_near};
pub use root::{length_up, root_down, root_up};
pub use vector::{cross, difference, dot, product};
