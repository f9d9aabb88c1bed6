//! What always holds of a station, whatever its calls: for library users, and for whoever wants to know. The program has no
//! part of it.
//!
//! `specs/Calling.antt` says what a station's calls are and what each leaves of it; `src/calls.rt` makes each of them, and
//! ensures that it is one. Over any list of them `connections_get_their_responses` says what was written to a connection,
//! `stations_import_their_sources` what is recorded of a source, `listeners_of_a_station_join_committed_links` where
//! listeners join, `commands_wait_no_longer` how long a command waits for its commit, `sources_wait_for_a_second` how long a
//! source waits for the air, `sources_that_send_are_not_silent` who isn't cut, and `an_end_stays` when a station has finished.
//! These are functions with a contract alone.
#![tactic(auto)]

mod calls;
mod connections;
mod places;
mod sources;
mod waiting;

pub use calls::{
    accepted, closed, end_open, input, input_ended, look, next, next_turn, peer_ended, read_failed,
    received, spent, step, turned, wake, write_failed, wrote,
};
pub use connections::connections_get_their_responses;
pub use places::listeners_of_a_station_join_committed_links;
pub use sources::stations_import_their_sources;
pub use waiting::{
    an_end_stays, commands_wait_no_longer, sources_that_send_are_not_silent,
    sources_wait_for_a_second,
};
