//! The lines of the program on standard error: what ends it with status 1, and what was mended.
//!
//! Each fault has one line: the word `fault` and where it was met, and then the number and the name that it has in
//! its crate, with the page's offset if there is one. A mend has a line of the same form, which begins with the word
//! `mended`. A line is put together on the stack. For archives and stations a fault's line goes on with a sentence, which
//! says what it is about and why (`sentences.rt`).
//!
//! Start at `specs/Fault.antt` and `specs/Mend.antt`, which have the lines.
#![tactic(auto)]

mod fault;
mod mends;
mod sentences;

pub use fault::{Fault, status_of, write_fault};
pub use mends::write_mend;
pub use sentences::{Place, is_input, status_about, told_about};
