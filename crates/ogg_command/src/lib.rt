//! Commands as data, and why one is refused.
//!
//! A command begins a link of logical streams, puts packets, or ends a stream (RFC 3533, section 4).
//! What it says lies in lists that contracts see as the lists of their items, and its packets can go
//! into runs as they are. Nothing here says which commands are refused: that is for the crates above.
//!
//! Start at `src/command.rt`, and at `specs/Command.antt`, which says which range each number has.
#![tactic(auto)]

mod command;
mod listed;
mod packets;
mod ranges;
mod refusal;

pub use command::{Begin, Command, Entry, NewStream, Put, SkeletonHead};
pub use listed::Listed;
pub use ogg_page::Memory;
pub use ranges::command_is_in_range;
pub use refusal::Refusal;
