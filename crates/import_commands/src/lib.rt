//! Ogg bytes as commands that add up to what they hold (RFC 3533, sections 4 to 6).
//!
//! A link becomes a `Begin` with each stream's headers. Then each page becomes a `Put` of the packets that end in it,
//! and a page that is marked as its stream's last an `End`. Run from no links on, these commands make a bitstream
//! with the same streams and packets.
//!
//! Start at `specs/Commands.antt`, which says what the commands of a chain of links are.
#![tactic(auto)]

mod codec;
mod headers;
mod laws;

pub use codec::{Codec, rate_of, shift_of};
pub use headers::header_count;
pub use laws::{
    commands_come_page_by_page, commands_of_links_add_up, packets_of_a_front_come_first,
};
