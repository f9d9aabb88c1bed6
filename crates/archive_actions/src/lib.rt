//! What the program does for `archive`: any Ogg stream is recorded as it comes, whatever stops or restarts, into one file
//! or into a folder of files.
//!
//! Each of these functions opens what it needs, calls the crates below, and returns the first fault that it met. It
//! leaves the fault's line to its caller.
#![tactic(auto)]

mod archiving;
mod filing;
mod keeping;
mod recording;

pub use archiving::{ArchiveOptions, archive};
pub use filing::{Filing, granted, is_folder, is_input_in, lock_folder, now, with_slash};
pub use keeping::Keeper;
pub use recording::{FileRecording, FolderRecording, Recording};
