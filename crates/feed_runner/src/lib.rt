//! What runs the records of a feed, and what takes their replies.
//!
//! A `Runner` runs a command or a flush and says how it is answered, as a multiplexer or a recorder does. `Replies` takes
//! each reply as a value: a writer takes its line as it comes, `Batched` has lines wait for each other, and
//! `FirstRefusal` ends the run after a refusal. `Counts` are those of the commands that were answered.
//!
//! Start at `specs/Answering.antt`, which says what records answered in turn are.
#![tactic(auto)]

mod batched;
mod counting;
mod refusing;
mod replies;
mod runner;

pub use batched::{Batched, Together};
pub use counting::Counts;
pub use refusing::FirstRefusal;
pub use replies::Replies;
pub use runner::Runner;
