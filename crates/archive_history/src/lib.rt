//! Histories of an archive: calls of its folder and of its newest file's recorder, answers and stops, and what the
//! folder shows through all of them.
//!
//! An archive is a folder of files under rising numbers. Only the newest is written, by a recorder; the others have
//! ended, each with one image, or were set aside as they are. history says what the newest file shows; these laws say
//! what the folder shows: file after file, every command that was acknowledged and not thrown away, in order and once.
//! Of a folder that is there already they say which file is the newest.
//!
//! Start at `specs/Archive.antt`, which says what is known of the files, and go on to `specs/Showing.antt`,
//! `specs/History.antt` and `specs/Starting.antt`; `archives_keep_what_was_acknowledged` joins them.
#![tactic(auto)]

mod beginning;
mod laws;
mod throwing;

pub use beginning::begin_file;
pub use laws::{
    archives_keep_what_was_acknowledged, calls_are_events, calls_lead_on, calls_leave_names,
    events_lead_on, folders_stand_as_their_account, the_last_file_is_kept,
};
pub use throwing::throw_away;
