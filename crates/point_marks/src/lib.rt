//! The mark of a point against each move of a program.
#![tactic(auto)]

mod marks;
mod question;

pub use marks::marks_of;
pub use question::Question;
