//! The answer to a request, over the committed bytes of a file (RFC 9110, RFC 9112).
//!
//! The response is a function of the file's links and of what is asked: the listing, the file, a link or a stream,
//! all of it or a part. So the same committed bytes and the same request have one response, and its content is as
//! long as its head says. Only `find_head` runs here: it reads a request. A server sends what these definitions say.
//!
//! Start at `specs/Response.antt`.
#![tactic(auto)]

mod asking;
mod laws;

pub use asking::find_head;
pub use laws::{contents_lie_in_the_file, responses_are_framed, responses_are_unambiguous};
