//! The setup of a self-test: a grid, a block of stock, a part in it and a tool, without a file.
#![tactic(auto)]

mod setup;

pub use setup::made_setup;
