//! What the program does for `lines`: each line of standard input is recorded as a packet.
//!
//! `LinePages` of line_packets makes the pages of a link of them, and a `Recording` of archive_actions records these as
//! those of an encoder. So what is promised of an archive holds of lines: whatever stops it, all that was on the disk
//! stays, and in a folder the link goes on in the next file.
//!
//! Start at `src/lining.rt`, which has the loop.
#![tactic(auto)]

mod lining;

pub use lining::{LineOptions, lines};
