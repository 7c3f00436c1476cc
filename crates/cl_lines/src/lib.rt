//! Record texts and numbers of cutter location text: lines, comments, continuation and rounding.
#![tactic(auto)]

mod comment;
mod decimal;
mod fault;
mod join;
mod number;
mod rounding;
mod text;
mod word;

pub use fault::{ClEnd, ClFault, ClWhy};
pub use number::{NumberFault, Unit, read_length, read_scaled};
pub use text::{Lines, MAX_BYTES, MAX_TEXT, Text, fits};
pub use word::Word;
