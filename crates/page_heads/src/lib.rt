//! The heads of pages in a source (RFC 3533, section 6): what a head says of its page, and which bytes it has.
//!
//! `read_front` makes one read, of at most the longest head. The body isn't read, so the checksum that the head says
//! isn't compared. It is for a place where a page is known to begin. It takes no memory. `facts_of` says what a head in
//! memory says.
//!
//! Start at `specs/Fronts.antt`, which says what a head says.
#![tactic(auto)]

mod front;

pub use front::{LONGEST_HEAD, PageFacts, PageFront, facts_of, read_front};
