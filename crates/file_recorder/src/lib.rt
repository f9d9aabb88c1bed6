//! A recorder: commands go into a file of links, and whenever the machine stops, the file holds whole commands.
//!
//! `Recorder::open` finds the committed bytes of a file that a stop may have left, and takes their pages into a
//! chain, in one pass. `command` answers by the rules. The pages of a command that isn't refused are staged one at a
//! time. One byte then decides whether they count, with those of the other commands of its group. Each call says what
//! every image shows at each moment since it began, and that it is a step of the file's history.
//!
//! Start at `specs/Recovery.antt`, which says what is recovered from an image, and go on to `specs/Recorder.antt`,
//! which says where a recorder stands in a history; `acknowledged_commands_survive` is what follows for every list of
//! calls. `specs/Running.antt` says how a recorder runs the records of a feed, and `specs/Steps.antt` which steps of its
//! file's history they are.
#![tactic(auto)]

mod commanding;
mod ending;
mod laws;
mod opening;
mod recorder;
mod running;
mod staging;

pub use ending::{end_open_streams, end_streams, first_open};
pub use feed_replies::{Kept, Outcome};
pub use gate_file::OpenFault;
pub use laws::{
    Recorded, acknowledged_commands_survive, ends_leave_fewer_open, images_show_one_recording,
    records_are_steps, what_shows_a_recording_is_opened,
};
pub use recorder::Recorder;
pub use running::{reply_to, reply_to_flush};
