//! A file that grows by whole appends, whenever the machine stops.
//!
//! After the committed bytes stands one closed byte, which is not the first byte of a page and which no stop opens.
//! An append lies after it, synced, before that one byte is opened; so one byte decides whether the append counts.
//!
//! Start at `specs/Commit.antt`, which says which bytes of an image are committed, and go on to `specs/Gate.antt`.
#![tactic(auto)]

mod committing;
mod fault;
mod file;
mod finding;
mod found;
mod laws;
mod sealing;
mod source;
mod staging;
mod steps;
mod visiting;

pub use fault::{FindFault, OpenFault};
pub use file::GateFile;
pub use found::Found;
pub use laws::{
    committed_bytes_are_unique, damaged_bytes_commit_to_nothing, pages_commit_to_themselves,
};
pub use ogg_page::{Memory, PageVisitor};
