//! The run over a whole feed whose commands go into a file of links.
//!
//! `record_feed` reads one record of a feed after the other and has a `Recorder` run it. Each command is answered by a
//! line, which is written before the next record is read, once the command is on the disk or waits for its group. A
//! refusal ends nothing, and after a disk fault each further command is refused. What waits is kept at the feed's end.
//! The recorder itself is file_recorder's, which says what it promises; it is handed on here with what always holds of
//! it.
//!
//! Start at `specs/Recorded.antt`, which says what a run has recorded at each moment and at its end.
#![tactic(auto)]

mod recording;

pub use feed_replies::{Kept, Outcome, RunFault, Tally};
pub use file_recorder::{
    Recorded, Recorder, acknowledged_commands_survive, end_open_streams, images_show_one_recording,
    records_are_steps, reply_to, reply_to_flush,
};
pub use gate_file::OpenFault;
pub use recording::{record_feed, record_feed_for};
