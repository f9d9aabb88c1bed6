//! Disks: what a read returns, and what a stop may leave.
//!
//! `Disk` says what an honest disk promises of its contents and of its images, which are what a stop at this moment
//! may leave. A disk keeps a clock, so that a caller can speak of every image since a moment. `MemDisk` proves
//! these promises and reports whether bytes are an image; `FuseDisk` makes chosen calls of another disk fail;
//! `FileDisk` is a file of the system, or any other raw file.
//!
//! Start at `specs/Image.antt`, which says what an image is, and go on to `specs/Clock.antt`.
#![tactic(auto)]

mod disk;
mod file;
mod fuse;
mod laws;
mod memory;
mod raw;

pub use disk::{Disk, DiskFault};
pub use file::{FileFault, FileMode};
pub use fuse::FuseDisk;
pub use laws::{
    bounds_have_every_image, calls_keep_images, settled_disk_has_one_image, time_adds_up,
    torn_writes_keep_the_rest, unsynced_cuts_leave_a_front, writes_behind_keep_the_front,
};
pub use memory::{MemDisk, Memory};
pub use raw::{FileDisk, RawFile};
