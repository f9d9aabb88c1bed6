//! The sources of a station: what one that is on the air has sent, what is recorded of it, and what is counted of all.
//!
//! An `OnAir` is a source whose bytes come piece by piece, as they are or in a body of HTTP. Its `step` finds the next
//! bytes of the stream among those that have come, passes them on, or takes the next page of them, whose commands any
//! `Runner` runs; at the end it ends what is open. What was lost of the source is noted, and `answer` says what its peer
//! is told. No byte is taken of it while it isn't hungry.
//!
//! Nothing here knows of a file, of connections or of a clock. `Counts` has what a station has done so far, in numbers,
//! and `station_line` tells at a terminal how it does.
//!
//! Start at `specs/Air.antt`, and go on to `specs/Faring.antt`, which says what is found among the bytes, and
//! `specs/Taking.antt`, which says it of the stream in the words of import_record. `specs/Beginning.antt` says how a stream
//! begins, and goes on in a file that was opened again. `src/laws.rt` says what all calls add up to.
#![tactic(auto)]

mod air;
mod beginning;
mod counting;
mod faring;
mod laws;
mod lines;
mod pending;

pub use air::{Feeder, OnAir, Took};
pub use counting::{Counts, MendCounts, counted};
pub use import_record::{Step, Taken};
pub use laws::sources_are_imported;
pub use lines::{Shown, station_line};
pub use std::alloc::AllocError as Memory;
