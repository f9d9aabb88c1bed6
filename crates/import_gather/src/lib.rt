//! Pages of an Ogg bitstream as commands, each as soon as its page is there (RFC 3533, sections 4 to 6).
//!
//! A `Gatherer` takes pages one by one. A link's `Begin` waits until its streams' headers are complete. From then on
//! each page becomes a `Put` of the packets that end in it, and the last page of a stream an `End`. Of each stream it
//! keeps the bytes of one unfinished packet, and of a link that waits the headers. All vectors grow by a `Grower`, which
//! notes when one may not: want of memory is answered for no other reason.
//!
//! Start at `specs/Gathered.antt`, which says how the commands given so far and the pages taken so far belong
//! together.
#![tactic(auto)]

mod cutting;
mod fault;
mod gatherer;
mod giving;
mod grower;
mod headers;
mod kept;
mod laws;
mod limits;
mod link;
mod streams;

pub use fault::GatherFault;
pub use gatherer::Gatherer;
pub use laws::{
    gathered_commands_hold_the_recording, links_are_begun_without_a_skeleton, packets_are_short,
};
