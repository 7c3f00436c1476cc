//! Laws of the definitions that no clause of the program cites, by which a reader can check that they say what they are meant to say.
#![tactic(auto)]

mod clearance;
mod safe_moves;
mod seen_gouge;
mod tangents;
mod upper_reading;
mod windows;

pub use clearance::clearance_laws;
pub use safe_moves::safe_move_law;
pub use seen_gouge::{Places, seen_gouge_laws};
pub use tangents::tangent_laws;
pub use upper_reading::upper_reading_laws;
pub use windows::window_laws;
