//! The pages of a command (RFC 3533, sections 4 to 6).
//!
//! A command begins a link of logical streams, puts packets, or ends a stream. Each adds pages, which depend on the
//! command and on the state of the last link's streams. `lay_command` appends the pages' bytes. `CommandPages` makes
//! the pages one at a time, in the caller's buffer. The order of a new link's pages stands once, in `BeginPages`, which
//! makes them in either place. The sizes can be found before any page is made.
//!
//! Start at `specs/Encoding.antt`, which says what the pages of a command are, and at `specs/Fits.antt`,
//! which says what is asked of a command.
#![tactic(auto)]

mod beginning;
mod laying;
mod limits;
mod paging;
mod putting;
mod runs;
mod sizes;
mod skeleton;

pub use laying::lay_command;
pub use limits::{FEW_STREAMS, SEQUENCES, SIZE_OF_END};
pub use ogg_page::Memory;
pub use paging::CommandPages;
pub use runs::{size_of_entry, size_of_runs};
pub use sizes::{size_of_begin, split_headers};
