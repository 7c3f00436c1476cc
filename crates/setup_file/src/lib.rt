//! Setup files: the grid, the check's settings, the tool, the bodies of stock, part and fixture, and how the part is turned, from the bytes.
#![tactic(auto)]

mod bodies;
mod body;
mod body_list;
mod check;
mod grid;
mod plane;
mod read;
mod setup;
mod shift;
mod tool;
mod turn_table;
mod unknown;

pub use setup::{Setup, read_setup};
pub use setup_keys::{KeyName, SetupEnd, SetupFault};
pub use shift::shifted;
