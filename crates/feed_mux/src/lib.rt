//! The multiplexer: a feed of commands in, an Ogg bitstream (RFC 3533) and reply lines out.
//!
//! `mux` reads one command after the other. A command that isn't refused adds its pages. Each command is answered by a
//! line, which is written after its pages and before the next record is read. Memory is bounded by one command. A
//! refusal ends nothing; a fault of the feed or of a writer ends the run, and everything before it stands.
//! `check_feed` writes the same replies and makes no page.
//!
//! Start at `specs/Progress.antt`, which says how a command is answered here; `specs/Run.antt` of feed_run
//! says what a run has read and written.
#![tactic(auto)]

mod answering;
mod checking;
mod laws;
mod muxing;

pub use checking::{check_feed, check_feed_for};
pub use laws::{checks_reply_as_runs_do, run_writes_what_was_kept};
pub use muxing::{mux, mux_for};
