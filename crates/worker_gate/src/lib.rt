//! Workers that turn the strips of a board by tickets, while queries are answered at the same time.
#![tactic(auto)]

mod asker;
mod gate;
mod round;
mod team;
mod threads;
mod worker;

pub use gate::{Gate, Open};
pub use team::crew;
