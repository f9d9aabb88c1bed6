//! Lines of text as packets of Ogg streams, and packets of any stream as lines of text.
//!
//! `LinePages` cuts an input into lines, however it comes in reads, and makes the pages of a link of them: the line
//! without its line feed is a packet, whose position is the time at which it came, in milliseconds since 1970. What it
//! leaves out is told. It asks no clock: the time is an argument.
//!
//! Start at `specs/Lines.antt`, which says what the lines of an input are, at `specs/Placing.antt`, which says what
//! becomes of each, and at `specs/Pages.antt`, which says what the pages hold at the end.
#![tactic(auto)]

mod acks;
mod begin;
mod bitstream;
mod choosing;
mod front;
mod laws;
mod lines;
mod pages;
mod placing;
mod streams;
mod texts;

pub use acks::{Acks, kept_line};
pub use choosing::{Choosing, Wanted, When};
pub use laws::lines_are_those_of_the_whole_input;
pub use lines::Taken;
pub use ogg_page::Memory;
pub use pages::{LineFault, LinePages, inputs_go_on};
pub use placing::{LeftOut, left_line};
pub use streams::Streams;
