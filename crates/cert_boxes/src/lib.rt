//! What a certificate means, and a judge of certificates that shares no bisection with the verifier.
#![tactic(auto)]

mod boxes;
mod cover;
mod draft;
mod forms;
mod judge;
mod laws;
mod making;
mod row;
mod search;
mod side;
mod span;
mod test;
mod tree;
mod verdict;

pub use judge::check;
pub use laws::{acceptance_law, making_law, time_laws};
pub use making::make;
pub use span::CellSpan;
pub use verdict::Verdict;
