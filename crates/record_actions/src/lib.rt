//! What is shared by all that record into a file, from standard input or as a server: the file is opened and sealed, and
//! what the recording comes to is told.
//!
//! A file is locked by `lock_file`, and `open_recorder` alone gets a recorder from what was locked. It is sealed by the
//! other functions of `recorders.rt`. `Told` tells of a recording as it goes, and at its end; `MendLines` writes a line
//! for each mend. Faults are returned, and their lines are left to the caller.
//!
//! Start at `src/recorders.rt`.
#![tactic(auto)]

mod asides;
mod beside;
mod copying;
mod locking;
mod mends;
mod recorders;
mod searching;
mod tails;
mod telling;

pub use asides::{Aside, Asides};
pub use beside::TailFiles;
pub use locking::{LockedFile, Missing, lock_file};
pub use mends::MendLines;
pub use recorders::{Opening, is_foreign, open_recorder, reopen, seal_after, seal_file, seal_if};
pub use tails::{Tail, find_tail};
pub use telling::Told;
