//! The marks of a ray's wanted points, a word of 64 at a time.
#![tactic(auto)]

mod axis_forms;
mod grid_forms;
mod held;
mod hull;
mod limits;
mod line;
mod long;
mod moments;
mod move_marker;
mod near;
mod on_stretch;
mod peak;
mod ray_marker;
mod ready_move;
mod scaled;
mod sheet;
mod sides;
mod slab_table;
mod step_forms;
mod strip_marker;
mod word;
mod word_progress;

pub use move_marker::MoveMarker;
pub use near::LOW_SLAB;
pub use ray_marker::RayMarker;
pub use ready_move::ReadyMove;
pub use strip_marker::StripMarker;
pub use word::WordMarks;
