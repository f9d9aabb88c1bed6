//! The packets of one stream, as slices of bytes that somebody else owns (RFC 3533, sections 5 and 6).
//!
//! `Packets` walks over bytes page by page and returns the packets of one stream that end before the first page at
//! fault, and then that fault. A `Packet` is its parts, one for each page that has bytes of it: nothing is copied,
//! and no call takes memory.
//!
//! A file may be larger than memory: a `Stream` over a window lends the same packets part by part, out
//! of the memory of one page.
//!
//! Start at `specs/Packets.antt`, which says which packets bytes hold.
#![tactic(auto)]

mod cut;
mod fault;
mod finding;
mod front;
mod joining;
mod laws;
mod packet;
mod packets;
mod part;
mod parts;
mod place;
mod reaching;
mod stream;
mod unread;
mod walking;

pub use fault::{StreamFault, ViewFault};
pub use laws::{
    a_page_has_one_part_of_a_packet, packets_are_held, parts_are_in_order, parts_are_of_the_packets,
};
pub use packet::Packet;
pub use packets::Packets;
pub use part::Part;
pub use parts::Parts;
pub use stream::Stream;
