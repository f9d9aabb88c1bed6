//! Commands, and the chain of links that they make (RFC 3533, section 4).
//!
//! A command begins a link of logical streams, puts packets, or ends a stream. `Shape` stands for
//! the chain so far. `check` says why a command is refused, or how long its pages are; `lay`
//! appends these pages; `prepare` makes the room, and then `accept` adds the command and takes no
//! memory. A caller that does all of this keeps a `Plan`, so that a command is decided once: `plan`
//! checks a command and plans what the chain is after it, and `accept_plan` adds the command by its
//! plan. A refusal changes nothing, and no call reads the file. `take_page` takes pages that were
//! read, one by one, and `unfinished` says whether they leave a packet unfinished.
//!
//! Start at `specs/Links.antt` of link_chain, which says what a link and a chain are, at
//! `specs/Decision.antt`, which is the table of refusals, and at `command_adds_its_packets`, the
//! law that joins the two.
#![tactic(auto)]

mod accepting;
mod begin;
mod checks;
mod entries;
mod laws;
mod limits;
mod lone;
mod plan;
mod shape;

pub use command_pages::CommandPages;
pub use laws::{
    command_adds_its_packets, command_adds_pages, commands_add_their_packets,
    ends_end_their_streams, refusals_are_of_the_table,
};
pub use link_chain::{
    Chain, ChainFault, Serials, StreamState, links_left_whole_hold_a_recording,
    pages_in_turn_are_links,
};
pub use ogg_command::{Begin, Command, Entry, Listed, NewStream, Put, Refusal, SkeletonHead};
pub use ogg_page::Memory;
pub use plan::Plan;
pub use shape::Shape;
