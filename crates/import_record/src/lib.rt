//! Any Ogg stream, recorded page by page: pages in, and the commands that they complete are run (RFC 3533).
//!
//! An `ImportRun` takes the pages of one input, one after the other, as an `Import` (import_mend) finds and mends them.
//! Their packets become commands, and a stream whose serial is taken gets one that is free. Each command is run at
//! once, and its reply is looked at. Whatever waits for its group is kept before more of the input is waited for, so
//! that a page is on the disk as soon as it has come.
//!
//! Start at `specs/Running.antt`, which says what was run, and at `specs/Steps.antt`, which says what a step does.
#![tactic(auto)]

mod answering;
mod begun;
mod fault;
mod intake;
mod laws;
mod lines;
mod reading;
mod resuming;

pub use answering::{Answered, run_all};
pub use fault::RecordFault;
pub use intake::Taken;
pub use laws::{
    pages_that_come_are_the_good_pages, recordings_are_runs_of_mended_commands,
    recordings_are_steps_of_their_file,
};
pub use lines::{Totals, archived_line, progress_line, refused_line};
pub use ogg_page::Memory;
pub use reading::{ImportRun, Step};
