//! What the program does with what it only reads: `links`, `split`, `finish` and `salvage` of a file, `list`,
//! `verify` and `cut` of an archive.
//!
//! Each of these functions opens what it needs, calls the crates below, and returns the first fault that it met. It
//! leaves the fault's line to its caller.
//!
//! Start at `src/files.rt`, which has the shortest of them, and for archives at `specs/Lines.antt` and
//! `specs/Times.antt`.
#![tactic(auto)]

mod checks;
mod cut_gaps;
mod cut_heads;
mod cut_lines;
mod cut_parts;
mod cutting;
mod files;
mod finishing;
mod indexing;
mod lines;
mod listing;
mod progress;
mod salvaging;
mod serials;
mod telling;
mod verifying;

pub use cut_parts::Cutting;
pub use cutting::{Finding, cut};
pub use files::{links, split};
pub use finishing::finish;
pub use listing::{list, list_text};
pub use salvaging::salvage;
pub use verifying::verify;
