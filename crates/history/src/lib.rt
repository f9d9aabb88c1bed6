//! Histories of a recording: calls with their answers and stops, and what its disk shows through all of them.
//!
//! A call's contract says what it leaves at each moment (`Leaves`) and what is known after its answer (`Meets`). These
//! laws say what follows for every list of such calls, with stops between them and inside them: every image shows what
//! a prefix of the commands has recorded, and every acknowledged command is in that prefix. Commands may share a
//! commit: those that wait for it are in no image, and after a fault or a stop in it an opening finds all of them or
//! none.
//!
//! Nothing here knows of pages, and nothing runs: `Recordings` says what an image shows and what a command changes,
//! and `Committed` how images show it by committed bytes.
//!
//! Start at `specs/World.antt`, which says what a step makes of the commands, and go on to `specs/History.antt`, which
//! says the same of the disk; `stops_keep_what_was_acknowledged` joins them.
#![tactic(auto)]

mod laws;
mod recordings;
mod recovering;

pub use laws::{
    acknowledged_commands_stay, disks_stand_in_their_world, groups_in_doubt_are_short,
    histories_go_on, runs_show_first_commands, stops_keep_what_was_acknowledged,
};
pub use recordings::Recordings;
pub use recovering::{Committed, images_show_what_their_bytes_hold, recordings_grow_by_commands};
