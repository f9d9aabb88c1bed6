//! Cuts: what was committed to a file from one place to another, as a sound Ogg bitstream of its own (RFC 3533,
//! section 4), and cuts of several files, one after the other.
//!
//! Start at `specs/Cut.antt`, which says what a cut is, and go on to `specs/Packets.antt` and `specs/Parts.antt`, which
//! say what it holds, and that cuts side by side hold each packet once.
#![tactic(auto)]

mod continuing;
mod cut;
mod endings;
mod fault;
mod finishing;
mod heads;
mod laws;
mod paging;
mod placing;
mod retelling;
mod stretch;

pub use continuing::{Meeting, meeting_of, name_page, name_said, names_on};
pub use cut::{Cut, hear_from};
pub use fault::CutFault;
pub use finishing::{Mark, StreamEnds, Way, mark_last};
pub use heads::{Said, said_of, take_page, take_pages};
pub use laws::{
    commands_are_cut, cuts_add_up, cuts_are_a_chain, cuts_are_given, cuts_can_be_finished,
    cuts_hold_what_was_put, cuts_of_times_add_up, files_go_on, files_stand_in_order, links_go_on,
    listeners_hear_the_joined_link, waiting_cuts_are_stretches,
};
pub use page_heads::{LONGEST_HEAD, PageFront, read_front};
pub use paging::{Paged, page_room};
pub use placing::{
    Recorded, Stand, counted_at, first_link, is_before, last_link, stood_at, time_of,
};
pub use retelling::retell;
pub use stretch::Stretch;
