//! A disk over another one that keeps the last bytes in memory, so that reads of them make no call.
//!
//! A `TailDisk` passes its calls on to the disk below. Of what is written it keeps a tail: bytes that follow each other
//! in the contents, up to a room whose memory is taken once. A read that lies in the tail is copied from there; each
//! other one asks the disk below. A call that fails leaves nothing known of the contents, so the tail is forgotten.
//!
//! Contents, images, moments and failures are those of the disk below: whoever uses a `Disk` may use this one.
//!
//! Start at `specs/Tail.antt`, which says what a tail is and what each call makes of it.
#![tactic(auto)]

mod disk;
mod keeping;
mod laws;
mod tail;

pub use disk::TailDisk;
pub use laws::{appended_bytes_are_kept, tails_stand_in_the_contents, tails_stay_in_their_room};
