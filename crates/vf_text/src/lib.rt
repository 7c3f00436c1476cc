//! Texts by bytes: growing pages, lines without their ends, blanks, and decimal digits.
#![tactic(auto)]

mod blank;
mod digits;
mod line;
mod page;

pub use blank::{has_only_blanks, is_blank_byte, skip_blanks, trim_end};
pub use digits::{digit_count, read_count, spell, split_digits};
pub use line::trim_line_end;
pub use page::Page;
