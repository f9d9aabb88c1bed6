//! A run over a feed: read a record, run it, write what belongs to it, reply.
//!
//! The records are run by a `Runner`, as a multiplexer or a recorder. A `FeedRun` takes one step at a time: it reads
//! a record, has it run, which writes its pages, and then writes the line of its reply. At the feed's end, at a fault
//! of the feed, and after 4,294,967,295 records it flushes what waits, and ends. `run_feed` takes all steps. A
//! refusal ends nothing.
//!
//! Start at `specs/Run.antt`, which says what a run has read and written.
#![tactic(auto)]

mod ahead;
mod answering;
mod flushing;
mod laws;
mod next;
mod run;
mod whole;

pub use ahead::{Ahead, Buffered, Unknown};
pub use laws::{records_without_pages_are_run, runs_go_on};
pub use run::FeedRun;
pub use whole::{run_feed, run_feed_for};
