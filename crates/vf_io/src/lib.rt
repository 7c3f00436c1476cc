//! The outside: named files in, lines out, and reading a whole file.
#![tactic(auto)]

mod answers;
mod cut_shelf;
mod folder_shelf;
mod memory_shelf;
mod memory_sink;
mod pieces;
mod retrying;
mod shelf;
mod sink;
mod standard_sink;
mod sure_shelf;
mod sure_sink;
mod whole_file;
mod whole_text;

pub use answers::{Failed, NoMemory};
pub use cut_shelf::CutShelf;
pub use folder_shelf::FolderShelf;
pub use memory_shelf::MemShelf;
pub use memory_sink::MemSink;
pub use pieces::split_line;
pub use shelf::Shelf;
pub use sink::Sink;
pub use standard_sink::StdSink;
pub use sure_shelf::SureShelf;
pub use sure_sink::SureSink;
pub use whole_file::{ReadEnd, read_all};
pub use whole_text::put_lines;
