//! Any pages, mended into those of a sound chain of links (RFC 3533, sections 4 to 6).
//!
//! Where pages are missing, come twice, or belong to no stream that has begun, a reader of the whole would stop. A
//! `Mender` leaves out or cuts only what can't be kept, and tells it as a `Mend`. The packets that lie whole in good
//! pages go on into the commands of a `Gatherer`. An `Import` does all of it: it finds the good pages in what a reader
//! gives, mends them, and ends what is open at the end.
//!
//! Start at `specs/Ways.antt`, which says what is done with a page, and at `specs/Mended.antt`, which says what is
//! left of it.
#![tactic(auto)]

mod cutting;
mod ending;
mod fault;
mod import;
mod joining;
mod laws;
mod losses;
mod mend;
mod mender;
mod taking;
mod telling;
mod ways;
mod writing;

pub use fault::ImportFault;
pub use import::{Import, Step};
pub use laws::{
    a_packet_is_dropped_from_the_links, commands_begin_links_without_a_skeleton,
    commands_hold_sound_links, open_streams_can_be_ended, packets_come_from_the_input,
    pages_found_are_the_good_pages, sound_bitstreams_are_not_changed, whole_packets_come_out,
};
pub use mend::Mend;
pub use mender::Mender;
pub use ogg_page::Memory;
