//! Replies to commands, as lines of text; and how a run over a feed ends.
//!
//! An outcome says what became of a command that wasn't refused, a reply that one is held, kept or refused. A reply's
//! line is put together from its end, goes out in one write and takes no memory. A run ends with a tally, or with what
//! went wrong: with its feed, or with what it writes.
//!
//! Start at `specs/Reply.antt`, which says which bytes a reply's line has.
#![tactic(auto)]

mod fault;
mod outcome;
mod reply;
mod tally;

pub use fault::{FeedFault, RunFault};
pub use outcome::Outcome;
pub use reply::{Kept, Reply, write_reply};
pub use tally::Tally;
