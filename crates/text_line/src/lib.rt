//! A line of text, put together from its end. It takes no memory.
//!
//! A line begins as its line feed. Words and numbers are put in front of it, the last one first, so a number needs no
//! second place for its digits. There is room for 128 bytes in all.
//!
//! Start at `specs/Line.antt`, which says what a contract sees of a line.
#![tactic(auto)]

mod line;

pub use line::Line;
