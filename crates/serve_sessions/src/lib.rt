//! The sessions of clients: a head that comes in pieces, then a response that is pulled; over a window on any source.
//!
//! A session keeps the head of its request until it is complete, and then its response: a text, and a place in the
//! bytes of the source. The call that completes a head brings an index of the source up to its end, so a request costs
//! only the bytes that are new. A listener that joins the last link finds the link's streams by the same index.
//!
//! Sessions stand in a vector in the order of their numbers. The vector, the index and the window are the caller's, and
//! nothing here knows of a recorder or a disk: crate `serve_hub` has both.
//!
//! Start at `specs/Sessions.antt`, which says which sessions of the machine of `serve_machine` these are.
//! `specs/Serving.antt` says what a call changes in its session, and `specs/Indexing.antt` how far an index goes. Then
//! `src/receiving.rt` and `src/pulling.rt` have the two calls, and `src/joining.rt` has that of a listener.
#![tactic(auto)]

mod indexing;
mod joining;
mod pulling;
mod receiving;
mod session;

pub use joining::join_in;
pub use pulling::pull_in;
pub use receiving::receive_in;
pub use session::{Session, Stage, add_session, drop_session, place_of, sessions_stay};
