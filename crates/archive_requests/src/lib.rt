//! What those who are connected to a station ask of its archive: its list, its files, and what was recorded from a time on
//! or between two.
//!
//! `Requests` answers what is asked, and has whoever gets an answer in its `Fetches` (archive_fetch). Before each turn of
//! such a connection it makes ready what comes next: the file that follows, or a piece of a cut. Which files there are it
//! asks of a `Shelf`. Sockets and clocks are its caller's.
//!
//! Start at `src/requests.rt`.
#![tactic(auto)]

mod cutting;
mod hearing;
mod requests;

pub use archive_fetch::{FileFacts, Memory};
pub use requests::{Present, Requests, Response, Shelf};
