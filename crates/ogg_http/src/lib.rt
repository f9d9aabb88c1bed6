//! The pure half of the server: request heads, targets, ranges and answer heads (RFC 9110, RFC 9112).
//!
//! `read_head` finds a request at the front of what a connection has sent, and borrows from it.
//! `Resource::of` says what its target names, and `range_of` which bytes its `Range` field asks for;
//! none of these takes memory. `response_head` appends the head of an answer to the caller's vector,
//! all of it or nothing. Which answer a request gets is for the crate above.
//!
//! The grammar of request heads is `httparse`'s, and the limits of 8,192 bytes and 64 fields are ours.
//!
//! Start at `specs/Head.antt`, then `Target`, `Range` and `Answer`.
#![tactic(auto)]

mod answer;
mod digits;
mod fields;
mod head;
mod laws;
mod range;
mod target;

pub use answer::{Answer, Memory, response_head};
pub use fields::first_of_name;
pub use head::{HeadRead, Request, Verb, read_head};
pub use laws::ranges_lie_inside;
pub use range::{Ranged, range_of};
pub use target::{Resource, path_of};
