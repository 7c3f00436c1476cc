//! Slots, tickets and passes: a board by which several workers advance the strips of a job in any order.
#![tactic(auto)]

mod ask;
mod board;
mod claim;
mod close;
mod moves;
mod raising;
mod reading;
mod rule;
mod start;
mod turn;
mod view;

pub use board::{Board, Pass};
pub use turn::Turned;
pub use view::{BoardStart, HeldStrip, Key, LogEntry, Met, View};
