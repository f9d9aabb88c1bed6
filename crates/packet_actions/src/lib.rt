//! What the program does for `packets`: the packets of any Ogg stream in a file or an archive are written as lines or as
//! JSON.
//!
//! Pages are gone through once, from the beginning of each file on. import_gather makes commands of them, which add up to
//! what the pages hold, and line_packets says what is written of commands.
//!
//! Start at `specs/Written.antt`, and then at `src/packing.rt`.
#![tactic(auto)]

mod packing;
mod paging;

pub use packing::{PacketOptions, packets};
