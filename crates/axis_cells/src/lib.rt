//! Sample and cell tests of one point against one move, and the point's mark.
#![tactic(auto)]

mod cell;
mod length;
mod mark;
mod plain;
mod point;
mod pose;
mod reach;
mod sample;
mod sweep;

pub use cell::scalar_product_on_cell;
pub use length::{scaled_square, short_scaled_square};
pub use mark::Mark;
pub use plain::plain_mark;
pub use point::{at_sample, cell_excludes, cells_of};
pub use pose::Pose;
pub use reach::in_reach;
pub use sample::Sample;
pub use sweep::Sweep;
