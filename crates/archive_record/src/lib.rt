//! An archive that is written: a folder of files, of which the newest is recorded into.
//!
//! `Files` owns the folder. It begins files under numbers above all others, hands the newest out and takes it back, and
//! throws files away. Nothing of a file that it has begun can be lost with the file's name.
//!
//! `open_sound` says which file can be gone on with, and leaves every other exactly as it is.
//!
//! `Rotation` begins, opens and ends the files in turn, throws old ones away, and has the lines of times written. Whoever
//! records has the newest file's recorder: `Archive`, which records an input, or a station.
//!
//! `archives_record_their_input` says what is recorded over the files, one after the other, whichever calls are made.
//!
//! Start at `specs/Files.antt`, which says what is known of a folder's files, at `specs/Opening.antt`, and at
//! `specs/Changing.antt`, which says how the newest file ends and the next one begins.
#![tactic(auto)]

mod archive;
mod beside;
mod damage;
mod ending;
mod files;
mod filing;
mod laws;
mod naming;
mod newest;
mod opening;
mod recovery;
mod retention;
mod rotation;

pub use archive::{Archive, ArchiveFault};
pub use archive_folder::FileName;
pub use beside::Beside;
pub use damage::Damage;
pub use ending::{Unended, end_open, end_streams};
pub use files::{BeginFault, Files};
pub use laws::{archives_record_their_input, records_lead_on};
pub use naming::{ArchiveNames, name_of, text_of};
pub use opening::open_sound;
pub use rotation::{Rotation, Rules};
