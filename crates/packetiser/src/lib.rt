//! Runs of packets as pages (RFC 3533, section 6).
//!
//! A run is packets of one logical stream, each with its position, that go into pages together. The
//! packets' lacing values are joined; each 255 of them, and what is left, make a page. The pages are
//! made one at a time in a space of the caller's: in a buffer, or appended to a vector. The sizes
//! are known before anything is written, from the packets or from counts alone.
//!
//! Start at `specs/Run.antt`, which says what the pages of a run are.
#![tactic(auto)]

mod encoding;
mod item;
mod laws;
mod lone;
mod paging;
mod place;
mod size;
mod space;

pub use encoding::lay_run;
pub use item::{Item, TimedPacket};
pub use laws::{run_is_held, run_is_pages};
pub use ogg_page::Memory;
pub use paging::RunPages;
pub use size::{pages_of, pages_of_run, size_of, size_of_run, values_and_bytes, values_of};
pub use space::PageSpace;
