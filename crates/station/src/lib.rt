//! A station: one file that an encoder is recorded into while any number of clients fetch it, or listen to what is
//! recorded.
//!
//! A `Station` is a machine without handles. Its caller owns the sockets and the clock: it tells the machine what has
//! happened and asks what is to be sent. The machine decides whose turn it is, what a connection asks for, when what was
//! recorded is committed, and how long a peer may be silent.
//!
//! A connection is a source, a listener, or a session of the hub, which answers it as `serve` does. There is one source
//! at a time, which may also be the caller's own input. What a listener hears is on the disk.
//!
//! The connections are those of `serve_clients`, the source that is on the air is one of `station_sources`, and what a
//! connection gets of the file is said by `station_hub`. Start at `src/station.rt`, which has the calls, and go on to
//! `src/stepping.rt`, which says what is recorded and when it is committed. `station_laws` says what calls add up to.
#![tactic(auto)]

mod changing;
mod offering;
mod sparing;
mod station;
mod stepping;
mod telling;
mod turning;

pub use import_record::{Answered, Step, Taken};
pub use serve_clients::{After, Client, Trouble};
pub use serve_sources::{FULL, Password};
pub use serve_texts::Visit;
pub use station::{Options, Station, Unaccepted};
pub use station_hub::{LiveHub, connections_are_owed_their_responses};
pub use station_sources::{Counts, Feeder, MendCounts, Shown, station_line};
pub use std::alloc::AllocError as Memory;
pub use stepping::Done;
