//! The words of `verify`, read by the library's command parser: the files that they name, and the number of workers.
#![tactic(auto)]

mod call;
mod command;
mod count;

pub use call::{VerifyWords, read_file, read_name, verify_words};
pub use count::read_within;
