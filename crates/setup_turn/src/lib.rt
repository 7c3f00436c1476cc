//! A saved stock that is turned into another grid, range by range.
#![tactic(auto)]

mod axes;
mod line;
mod place;
mod sets;
mod turn;

pub use turn::{TurnEnd, turn_stock};
