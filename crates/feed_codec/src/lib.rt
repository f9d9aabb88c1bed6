//! Feeds of commands, read one record at a time, and what always holds of their records.
//!
//! A feed is a stream of records, each a command or a flush. `Feed` reads them one at a time and keeps one payload. A
//! record's payload is checked before any memory is asked for its command. How records are written (feed_records) and
//! what answers them (feed_replies) is handed on.
//!
//! Start at `specs/Feed.antt`, which says what a feed answers, and what is wrong with bytes that begin with no record.
//! What a record is stands in `specs/Record.antt` of feed_records.
#![tactic(auto)]

mod at_hand;
mod building;
mod head;
mod laws;
mod payload;
mod reading;
mod spare;

pub use feed_records::{
    Record, Version, fits_record_2, write_command, write_command_2, write_flush, write_version,
};
pub use feed_replies::{FeedFault, Kept, Reply, RunFault, Tally, write_reply};
pub use laws::{feeds_are_unambiguous, records_are_prefix_free, records_are_read_back};
pub use reading::Feed;
