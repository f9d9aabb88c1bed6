//! The feed of an Ogg bitstream that is read once, such as one that an encoder sends through a pipe.
//!
//! `make_feed` reads pages, gathers them into commands, and writes these as the records of a feed of version 2. What a
//! page completes is written before the next read, and before a fault is reported. `make_mended_feed` does the same of
//! any input: what has no place in a sound chain is mended, and told to a `Mends`.
//!
//! Start at `specs/Making.antt`, which says what was written of what was read, and at `specs/Mending.antt` for an input
//! that is mended.
#![tactic(auto)]

mod fault;
mod giving;
mod made;
mod maker;
mod making;
mod mended;
mod mending;
mod source;
mod telling;

pub use fault::MakingFault;
pub use import_changes::{ChangeOptions, Skeletons};
pub use import_mend::Mend;
pub use made::Made;
pub use making::make_feed;
pub use mended::make_mended_feed;
pub use ogg_page::Memory;
pub use telling::Mends;
