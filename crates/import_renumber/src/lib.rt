//! Commands under serials that are free, on their way to a runner.
//!
//! A file takes each serial once. A `Renumbered` runner gives each stream of a new link whose serial a stream of the file
//! has had another one, before the runner below it gets the command; the stream's packets and its end follow. What the
//! runner below replies is handed on. So an encoder that takes the same serials after each start can be recorded into
//! one file.
//!
//! Start at `specs/Renumbering.antt`, which says what each command becomes.
#![tactic(auto)]

mod copying;
mod laws;
mod renumbered;

pub use laws::free_serials_stay;
pub use ogg_command::Memory;
pub use renumbered::Renumbered;
