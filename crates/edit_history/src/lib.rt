//! The line of edits that a journal keeps: which edits applied a move, and how many of them are left, by definitions and lemmas.
#![tactic(auto)]
