//! Records of a feed, each a command or a flush, and how they are written. Their form is ours.
//!
//! `write_command` and `write_flush` append records. A feed of version 2 begins with what `write_version` appends; the
//! streams of its begin records have message fields, and `write_command_2` writes those, of each command of which
//! `fits_record_2` says that it fits. Beside them stand how long the parts of a record are, for whoever reads it.
//!
//! Start at `specs/Record.antt`, which says what a record is.
#![tactic(auto)]

mod fits;
mod item;
mod size;
mod version;
mod widths;
mod writing;

pub use fits::fits_record_2;
pub use item::{Item, Record};
pub use version::{ANNOUNCEMENT, Version};
pub use widths::{COUNT, ENTRY_FRONT, HEAD, LENGTH, MOST_PAYLOAD, SERIAL, STREAM_FRONT, TAIL};
pub use writing::{write_command, write_command_2, write_flush, write_version};
