//! The places of the links and the streams of an Ogg bitstream (RFC 3533, section 4).
//!
//! An index says of each link at which offset it begins, how long it is and which streams it has. For each stream
//! it says how many bytes and pages the stream has and whether it has ended. The index grows with the bytes: they
//! are added in pieces that are cut between pages, or page by page, and every way of cutting them makes the same
//! index. A `PageTaker` is the visitor that adds the pages of a walk. To add a page takes one pass over the streams of
//! its link. The index keeps some 40 bytes a stream, whatever the length of the file.
//!
//! Start at `specs/Index.antt`, which says what the index of links is, and go on to `specs/Adding.antt`, which says
//! what adding bytes leaves, and `specs/Indexing.antt`, which says why a page isn't added.
#![tactic(auto)]

mod fault;
mod index;
mod info;
mod laws;
mod listing;
mod rows;

pub use fault::IndexFault;
pub use index::{Index, fault_at};
pub use info::{LinkInfo, StreamInfo};
pub use laws::{index_tells_places, links_are_indexed, pieces_give_one_index};
pub use link_chain::PageTaker;
pub use ogg_page::Memory;
