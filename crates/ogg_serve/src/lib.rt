//! One connection after the other: a request is read, and its response is written, while a feed may be recorded.
//!
//! `serve_one` gives a connection its session of a hub, and closes the session whatever happens. `live_one` does the
//! same, and takes one step of a feed before each piece of the response. A connection is a reader and a writer, as two
//! handles of one socket are.
//!
//! Start at `specs/Serving.antt`, which says what a connection gets, and go on to `specs/Feeding.antt`, which says
//! what a step of the feed does. `specs/Steps.antt` says which steps are taken while a connection is served, and
//! `specs/Keeping.antt` what both leave of the hub. `specs/Life.antt` says what all steps of a feed have run;
//! `feeds_are_run_beside_sessions` joins them. `specs/FileHistory.antt` says where the hub stands in the history of
//! its file, and how calls lead that history on.
#![tactic(auto)]

mod feeding;
mod laws;
mod live;
mod pieces;
mod serve;
mod trying;

pub use feeding::{LiveFeed, Step};
pub use laws::{feeds_are_run_beside_sessions, histories_go_on_beside_sessions};
pub use live::live_one;
pub use pieces::Served;
pub use serve::serve_one;
pub use serve_hub::{Hub, HubFault, JoinPlace, Listener, OpenFault, Outcome, Progress, Pulled};
