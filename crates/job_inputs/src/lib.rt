//! What the commands read: the program of a file, and the task that a program, a setup, a saved stock and a script stand for.
#![tactic(auto)]

mod asked;
mod bodies;
mod certificate;
mod input;
mod stock;
mod task;
mod tool;

pub use asked::{AskedInputs, read_asked};
pub use bodies::{part_as_it_lies, raised_fixture};
pub use certificate::read_certificate;
pub use input::read_moves;
pub use input_faults::Stopped;
pub use task::{TaskInputs, made_inputs, read_task};
pub use tool::{defaults_of, move_cutter, tool_text};
