//! Changes of the commands that a bitstream is gathered into, command by command.
//!
//! `Changes` gives a stream another serial if an earlier link already has its serial, as when an encoder was started
//! again: a recorder takes each serial once in a file. Serials that are taken before, such as those of the file that is
//! recorded into, are avoided likewise. The stream's packets and its end follow. `Changes` also leaves out Skeletons,
//! and begins each link with a new Skeleton, which says what the Skeletons say that are left out of the link.
//!
//! Start at `specs/Changed.antt`, which says what the changed commands add up to.
#![tactic(auto)]

mod changes;
mod describing;
mod laws;
mod naming;
mod options;
mod renaming;
mod saying;
mod skeletons;

pub use changes::{Changes, NO_UTC};
pub use laws::renumbered_streams_have_their_own_serials;
pub use naming::{free_serial, name_all, name_of};
pub use ogg_command::Memory;
pub use options::{ChangeOptions, Skeletons};
