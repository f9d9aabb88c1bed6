//! Pages out of bytes that can be read once only, one after the other, as an encoder's that come through a pipe.
//!
//! A `PageReader` has the memory of one page. It lends each page as soon as the page's last byte is there, and asks
//! the reader for no more than what comes at once.
//!
//! Start at `specs/Reader.antt`, which says what a call leaves.
#![tactic(auto)]

mod failures;
mod fault;
mod filling;
mod finding;
mod front;
mod held;
mod laws;
mod reader;

pub use fault::PageReaderFault;
pub use laws::{definite_faults_stay, pages_of_any_reads_are_those_found};
pub use ogg_page::Memory;
pub use reader::PageReader;
