//! What the programs do for those who serve a file: `serve` and `live` whole, and of `station` all but its loop.
//!
//! A file is opened as a hub, and sealed at the end if it was sealed at first. `serve_next` and `live_next` serve one
//! connection, whatever its reader and its writer are; `serve` and `live` accept them. A `Log` makes the lines that a station tells of its connections
//! and sources. Each of these functions returns the first fault that it met, and leaves the fault's line to its caller.
//!
//! Start at `src/hubs.rt`, which opens and closes what `serve` and `live` have.
#![tactic(auto)]

mod connections;
mod feeds;
mod hearing;
mod hubs;
mod lines;
mod log;
mod passwords;
mod server;

pub use connections::{live_next, serve_next, unless};
pub use feeds::{FileFeed, is_lost, open_feed, record_rest};
pub use hearing::{HeardDisk, hear_file};
pub use hubs::{Opened, close, close_hub, open_grouped, open_hub};
pub use log::{Log, tell_foreign, tell_serving};
pub use passwords::read_password;
pub use server::{live, serve};
