//! Records of cutter location text: words, parameters, and what each stands for.
#![tactic(auto)]

mod corner;
mod cutter;
mod field;
mod flank;
mod kind;
mod parameters;
mod records;
mod statement;
mod values;
mod word;

pub use cutter::CutterText;
pub use records::Records;
pub use statement::Record;
