//! One point's mark against one move of a cutter, and what the mark says of the cutter.
#![tactic(auto)]

mod cutter_mark;

pub use cutter_mark::mark_of;
