//! Files of an archive that are fetched over HTTP: what a request asks for, which answer it gets, and the connections that
//! get one (RFC 9110, RFC 9111).
//!
//! `Wish::of` says whether a request's target names a file by its number, the list of all files, or what was recorded from
//! a time on, or between two. `reply_to` decides the answer as the server of one file does for its resources; beside that a
//! file has an entity tag, of its number and its length, and one that has ended may be kept by caches for good. `head_of` is
//! the head. A `Body` gives the bytes of the file that follow; `Heard` gives what a listener hears of a file from a place on,
//! as more of it is committed, and goes on in the next file where a `Meeting` says that the open link does. `Fetches` has
//! the connections that get such answers, each under a key, as `serve_clients` has them; what isn't a file's is supplied by
//! the caller.
//!
//! Nothing here has a handle.
//!
//! Start at `specs/Wishes.antt` and `specs/Replies.antt`.
#![tactic(auto)]

mod asking;
mod bodies;
mod conditions;
mod fetches;
mod heads;
mod hearing;
mod laws;
mod meetings;
mod moments;
mod replies;
mod wishes;

pub use asking::{asked_of, may_ask};
pub use bodies::Body;
pub use conditions::{condition_in, is_had};
pub use fetches::{Content, Fetches};
pub use heads::{Memory, cut_head, head_of};
pub use hearing::Heard;
pub use laws::files_are_answered_as_resources;
pub use meetings::Meeting;
pub use moments::past_time;
pub use replies::{FileFacts, Reply, answer_in, list_answer, refusal_of, reply_to};
pub use serve_sources::LIVE;
pub use wishes::Wish;
