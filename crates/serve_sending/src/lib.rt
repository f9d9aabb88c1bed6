//! A response that is sent piece by piece, with most of it left in the file until then (RFC 9110, RFC 9112).
//!
//! When a request's head is complete its response is fixed: the head and a listing are made then, in a vector. What
//! follows from the file is kept as a place and a count, and is read into the caller's buffer when it is sent. So a
//! session takes memory only for a text, and what it sends stays the same while the file grows.
//!
//! Start at `specs/Sending.antt`.
#![tactic(auto)]

mod answering;
mod body;
mod extent;
mod finding;
mod laws;
mod pulling;
mod sending;
mod walking;

pub use laws::rests_of_responses_stay;
pub use ogg_page::Memory;
pub use sending::Sending;
