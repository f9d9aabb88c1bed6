//! Finished links, in which players stop at the right sample: an ended stream ends on a page with a packet (RFC 3533,
//! sections 4 and 6).
//!
//! `End` marks a stream's last page by one page more, without packets. Many players then play a few samples too many,
//! or too few. A finished link is the same but for these pages: they are left out, and the page before, with the
//! stream's last packet, is marked. A finished link holds the same streams and packets. Only a page whose mark changes
//! is made anew, with its checksum; all others are copied as they stand.
//!
//! `finish_link` reads a link twice through one window. A few numbers are kept for each stream, none for each page,
//! and no memory is taken.
//!
//! Start at `specs/Finishing.antt`, which says what a finished link is.
#![tactic(auto)]

mod fault;
mod finishing;
mod laws;
mod passes;
mod stream_end;
mod writing;

pub use fault::FinishFault;
pub use finishing::{finish_file, finish_link};
pub use laws::{finished_links_hold_the_same, link_goes_on_after_its_first_page};
