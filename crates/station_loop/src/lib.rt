//! The loop over a station: bytes go between its sockets and the machine, which decides everything.
//!
//! `station` opens the file or the folder, listens, and runs round after round until a fault, or until the station has come
//! to its end. What it is recorded into is a `Recorded`: one file, or the files of a folder.
//! The system tells when a socket or standard input has something (`mio`); what is to be done then is asked of `Station`,
//! and of `Requests` (archive_requests) for those who fetch something of a folder.
//!
//! Start at `src/running.rt`.
#![tactic(auto)]

mod broadcasting;
mod fetching;
mod filing;
mod refusing;
mod running;
mod sockets;
mod telling;

pub use archive_actions::Filing;
pub use broadcasting::{Options, station};
pub use refusing::refusal_of;
