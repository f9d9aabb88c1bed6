//! What a station says to people and to their tools: a page to listen on, its numbers, and the lines of its log.
//!
//! `append_player` appends the response that is the player, a page for a browser. `append_status` appends the response
//! that has the `Numbers` of a station, in the text format of Prometheus. A `Visit` remembers of a connection what its
//! line in the log has, and `Visit::append_line` appends that line, in the combined format of Apache's httpd.
//!
//! Nothing here has a handle. What is appended is appended as a whole or not at all.
//!
//! Start at `specs/Response.antt`, then `Player`, `Status` and `Log`. `src/laws.rt` has the laws.
#![tactic(auto)]

mod escape;
mod heard;
mod laws;
mod log;
mod numbers;
mod page;
mod pieces;
mod player;
mod reply;
mod response;
mod sample;
mod status;
mod value;
mod visit;

pub use laws::{fronts_are_these, lines_are_printable, parts_are_quoted, responses_are_read};
pub use numbers::{Mends, Numbers};
pub use page::PLAYER;
pub use player::{PLAYER_FRONT, append_player};
pub use reply::Reply;
pub use status::{STATUS_FRONT, append_status};
pub use std::alloc::AllocError as Memory;
pub use visit::Visit;
