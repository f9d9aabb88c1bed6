//! The connections of a server that has many: how far each has come, whose turn it is, and how long is waited for it.
//!
//! `Clients` has a `Client` for each connection, under a key, and the queue of those that have something to do. Nothing
//! here has a handle: the caller tells what the system says of a socket, and what could be read or written of it.
//! What was given for a connection and couldn't be written is kept, and given again first.
//!
//! A connection has a turn if the system tells something of it, if bytes went over it in the turn before, or if its
//! owner says so. Only for want of memory it gets none; then it gets one when everybody is looked at. `Kinds` counts the
//! connections by what they are.
//!
//! Start at `specs/Client.antt` and `specs/Clients.antt`.
#![tactic(auto)]

mod client;
mod clients;
mod grower;
mod kinds;
mod line;
mod patience;

pub use client::{After, Client, Stage};
pub use clients::Clients;
pub use kinds::{Kind, Kinds, kind_of};
pub use line::{Line, Trouble};
pub use patience::is_refused;
pub use std::alloc::AllocError as Memory;
