//! A chain of links, page by page (RFC 3533, section 4).
//!
//! A file is a chain of links, each a group of logical streams. `Chain` stands for the links so far. A chain takes
//! pages that were read, one by one, or reports why one may not follow; a `PageTaker` is the visitor that hands it
//! those of a walk. `unfinished` says whether they leave a packet unfinished. The crates above add links and pages that
//! they make themselves, by `add_link` and `go_on`. No call reads the file, and `reserve_link` has made the room for a
//! link before it is added.
//!
//! Start at `specs/Links.antt`, which says what a link and a chain are, at `specs/Recording.antt`, which
//! says what a chain holds, and at `specs/Taking.antt`, the rules for a page.
#![tactic(auto)]

mod chain;
mod chain_fault;
mod in_turn;
mod laws;
mod limits;
mod places;
mod serials;
mod stream_state;
mod streams;
mod taker;
mod taking;
mod walking;

pub use chain::Chain;
pub use chain_fault::ChainFault;
pub use in_turn::TakesInTurn;
pub use laws::{bytes_are_one_chain, links_left_whole_hold_a_recording, pages_in_turn_are_links};
pub use limits::{MOST_LINKS, MOST_STREAMS, POSITIONS};
pub use ogg_page::Memory;
pub use places::{place_of, stream_at};
pub use serials::Serials;
pub use stream_state::StreamState;
pub use streams::{is_open, next_sequence, stream_in};
pub use taker::PageTaker;
pub use taking::is_whole_packet;
pub use walking::{Walk, WalkFault, take_pages};
