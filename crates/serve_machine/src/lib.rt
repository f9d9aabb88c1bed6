//! One file, recorded and served at the same time: what each call does, and what each session gets.
//!
//! A hub is a machine whose steps are its calls. A session receives the head of a request. The call that completes it
//! fixes the whole response, over the bytes that are committed then; pulls take the response from its front. A
//! command changes what later sessions get, and nothing for a session that has its response. So what a session pulls
//! depends only on its own calls and on one moment, whichever calls of others come between.
//!
//! Here are the machine and its laws; only the tables of `HubFault` run. A hub that runs has these laws once each of
//! its calls is a step: see `calls_are_steps`.
//!
//! Start at `specs/Hub.antt`, which is the machine, and go on to `specs/Run.antt`, which says what a session gets of
//! its steps; `sessions_get_their_responses` joins them.
#![tactic(auto)]

mod answers;
mod calls;
mod fault;
mod laws;
mod rests;

pub use answers::{Progress, Pulled};
pub use calls::{SeenAsHub, calls_are_steps};
pub use fault::HubFault;
pub use laws::{
    calls_can_be_answered, calls_move_their_session, committed_bytes_grow, numbers_are_given_once,
    other_sessions_stay, refusals_are_exact, sessions_are_few, sessions_are_numbered,
    sessions_get_their_responses,
};
pub use rests::{
    parts_are_places, stream_rests_are_found, stream_rests_are_places,
    stream_rests_begin_with_links,
};
