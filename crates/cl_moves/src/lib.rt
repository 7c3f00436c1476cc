//! The moves of a cutter location text.
#![tactic(auto)]

mod axes;
mod fold;
mod moves;
mod positions;
mod program;

pub use cl_records::CutterText;
pub use moves::{MAX_MOVES, Move, Moves};
pub use program::{Program, read_program};
