//! The texts of answers: the listing of moves, the marks of a point, the report of a check, and the one line of a refusal.
#![tactic(auto)]

mod answers;
mod cert_answer;
mod cert_fault;
mod counted;
mod fault;
mod listing;
mod marking;
mod place;
mod report;
mod script_fault;
mod selftest;
mod setup_fault;
mod stock_fault;
mod verdict;

pub use cert_answer::{cert_verdict_text, made_cert_text};
pub use fault::refusal_text;
pub use input_faults::{Fault, Input};
pub use job_report::{Facts, Found};
pub use listing::list_text;
pub use marking::point_text;
pub use report::report_text;
pub use selftest::selftest_text;
