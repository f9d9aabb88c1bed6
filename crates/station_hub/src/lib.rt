//! The hub of a station: what its connections get of the file while it is recorded.
//!
//! A `LiveHub` is a hub, and where listeners may join the link that it records, as the hub's answers to commands tell
//! it. It runs commands as its hub does (`specs/LiveRunning.antt`). A connection that the hub answers is given a session
//! by `connect`, whose further bytes `read_on` takes; one that listens joins by `listen`. `give` gives either the next
//! bytes that are to be written.
//!
//! `is_due` says when what waits is committed, and `Waking` when those who hear what is recorded are woken for it.
//!
//! Start at `specs/Giving.antt`, which says what a connection is given and owed, and at `specs/Places.antt`, which says
//! where listeners may join; `specs/Tracking.antt` says that these are places of what is committed, and `specs/Live.antt`
//! that calls leave them so. `src/laws.rt` has the laws.
#![tactic(auto)]

mod asking;
mod giving;
mod laws;
mod live_hub;
mod patience;
mod places;
mod telling;
mod waking;

pub use asking::{ask, notice};
pub use laws::{
    connections_are_owed_their_responses, listeners_hear_what_a_hub_commits,
    listeners_join_committed_links,
};
pub use live_hub::LiveHub;
pub use patience::{is_due, sooner, until_due};
pub use telling::in_seconds;
pub use waking::Waking;
