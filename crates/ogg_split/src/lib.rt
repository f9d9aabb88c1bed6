//! Copies of a link or of one stream out of an Ogg file, and the good pages of damaged bytes (RFC 3533, sections 4
//! and 6).
//!
//! An index says where a link lies in its file and which streams it has. With it a link's pages are written as they
//! stand, or only those of one of its streams; or the stream's packets are lent. The file is a slice, or it is read
//! through a window, one page at a time. Through a window it may be larger than memory, and the packets come part by
//! part. None of this takes memory. `salvage` needs no index: it lists the pages that any bytes have, damaged ones
//! too.
//!
//! Start at `specs/Asked.antt` and `specs/Copying.antt`, which say what a copy is, and at `specs/Salvage.antt`, which
//! says which pages are good.
#![tactic(auto)]

mod copying;
mod fault;
mod finding;
mod laws;
mod piecewise;
mod salvaging;
mod walking;
mod windows;

pub use copying::{copy_link, copy_stream, packets_of};
pub use fault::SplitFault;
pub use laws::{good_pages_are_one_list, index_has_the_streams};
pub use ogg_page::Memory;
pub use salvaging::{GoodPage, salvage};
pub use windows::{copy_link_from, copy_stream_from, parts_of, seek_link};
