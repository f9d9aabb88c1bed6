//! A hub: one file that is recorded and served at the same time.
//!
//! A `Hub` owns a recorder and the sessions of the clients that fetch its file. Each of its calls is one step of the
//! machine that crate `serve_machine` describes. So the laws of that machine hold of whatever calls come, in any order.
//!
//! What a session keeps, and what its calls do over any source of pages, is in crate `serve_sessions`. Here the source
//! is the recorder, whose committed bytes grow: the call that completes a head brings an index of the file up to their
//! end, so a request costs only the bytes that are new.
//!
//! A listener hears the file while it is recorded: it joins the open link, or waits for the next one, and hears what is
//! committed. It is the caller's, and a hub keeps nothing of it, so its calls are no steps of the machine.
//!
//! Start at `specs/Showing.antt`, which says which machine a hub is seen as, and go on to `src/hub.rt`, which has the
//! step of each call. `specs/Images.antt` says what each image of the disk shows while a call goes on.
//! `src/listening.rt` has the calls of listeners, and `src/laws.rt` their laws.
#![tactic(auto)]

mod commanding;
mod exchanging;
mod hub;
mod laws;
mod listening;
mod opening;
mod reading;
mod running;
mod telling;

pub use file_recorder::Outcome;
pub use gate_file::OpenFault;
pub use hub::Hub;
pub use laws::{
    images_show_what_was_heard, listeners_go_on_hearing, what_a_hub_lets_hear_is_a_chain,
};
pub use serve_live::{JoinPlace, Listener};
pub use serve_machine::{HubFault, Progress, Pulled};
