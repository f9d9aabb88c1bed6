//! How a reader sees an archive's folder: its files in their order, the time of each, and where its pages end.
//!
//! `folder` reads the names, `times_of` the lines of times beside a file, and `committed` finds where the committed
//! bytes of a file end, also of the one that is written just now: it reads pages by their heads, from the last line of
//! times on. No call takes a lock, and none writes. A reader sees what was committed when it looked; more may follow.
//!
//! What is decided, by names, lines and times that are handed in, is exact by contract: which of the names are files
//! (`read_entries`), when a file was recorded (`span_of`), and where pages end (`end_from`).
//!
//! Start at `specs/Folder.antt`, `specs/Span.antt` and `specs/Ends.antt`, which say so.
#![tactic(auto)]

mod ahead;
mod fault;
mod files;
mod laws;
mod listed;
mod prefix;
mod span;
mod walking;

pub use ahead::Ahead;
pub use fault::ReadingFault;
pub use files::{committed, folder, last_line_of, length_of, path_of, times_of};
pub use laws::walks_end_where_bytes_are_committed;
pub use listed::{Entry, Listed, Seen, read_entries};
pub use ogg_page::Memory;
pub use prefix::Prefix;
pub use span::{GAP, Span, begin_of, goes_on_with, is_gap, overlaps, span_of};
pub use walking::end_from;
