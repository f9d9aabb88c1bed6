//! What the program does with what comes on standard input: `mux`, `check`, `feed` and `record`.
//!
//! Each of these functions opens what it needs, calls the crates below, and returns the first fault that it met. It
//! leaves the fault's line to its caller.
//!
//! Start at `src/streams.rt`, which has the shortest of them.
#![tactic(auto)]

mod streams;

pub use streams::{RecordEnds, check, feed, mux, record};
