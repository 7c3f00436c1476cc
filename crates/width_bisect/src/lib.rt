//! The mark of a point from its forms on a whole move, by halving its time, with nothing counted.
#![tactic(auto)]

mod asked;
mod bounds;
mod compare;
mod forms;
mod halves;
mod lists;
mod point;
mod sample;
mod search;
mod slab_search;
mod stretch;
mod whole;
mod words;

pub use asked::Asked;
pub use bounds::Bounds;
pub use forms::WholeForms;
pub use point::{mark_below, mark_by_forms, mark_on_part};
pub use sample::Sample;
pub use words::product;
