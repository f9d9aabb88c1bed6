//! Folders of files: which names a list gives, and which a stop may leave.
//!
//! `Folder` says what an honest folder promises of its names, and how its files are handed out as disks. What a stop
//! may leave of a folder is a list of numbers, with an image of the disk under each; `Disk` (disk_model) says which
//! images a disk has. A folder keeps a clock of its own, so that a caller can speak of every moment inside a call.
//! `MemFolder` has these promises; `FuseFolder` makes chosen calls of another folder fail; `FileFolder` is a folder over
//! any raw one, and `SystemFolder` is the raw folder of the system.
//!
//! Start at `specs/Names.antt`, which says what is known of a name and what a stop may leave.
#![tactic(auto)]

mod folder;
mod fuse;
mod laws;
mod memory;
mod names;
mod raw;
mod system;

pub use folder::Folder;
pub use fuse::FuseFolder;
pub use laws::names_after_calls;
pub use memory::MemFolder;
pub use names::{Fate, FileFacts, FileName, Name};
pub use raw::{FaultKind, FileFolder, RawFolder};
pub use system::{Naming, SystemFile, SystemFolder};
