//! A station over the files of a folder: it goes over from file to file, while those who read one that has ended go on.
//!
//! A `Station` serves one file. `Stations` has the one whose file is recorded, and one more for each file that has ended and
//! is read still: a session gets the rest of its own answer there, and a listener hears the file to where its open link goes
//! on in the next one, and then hears on there, as one link; only if none goes on does it hear the next one from its first
//! page on. Of a file that was opened again after a fault it hears on where that left off. Who reads a file that was left is
//! told by its `Seat`.
//!
//! `Filed` has the folder (`Rotation` of archive_record). It says when the next file is begun, and changes the station's
//! file for it: what waits is kept, and from then on the file is read alone, by those who read it; what is open is ended, the
//! file is cut to its pages, and the link that the source has open begins again in the next one. Who listens hears neither
//! the ends nor the beginning.
//!
//! Start at `src/seats.rt`, and go on to `src/filed.rt`.
#![tactic(auto)]

mod filed;
mod seats;

pub use filed::{Clocks, Filed, Readers};
pub use seats::{Meeting, Move, Seat, Stations};
