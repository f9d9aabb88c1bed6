//! What a record of a feed holds.
use ogg_command::Command;

/// A record of a feed.
#[derive(Debug, Drop)]
pub enum Record {
    /// A command.
    Command(Command),
    /// A flush, which is no command: what waits is to be committed at once.
    Flush,
}

/// What stands in a feed.
#[derive(Debug, Drop)]
pub enum Item {
    /// The announcement that the records after it are of version 2, which stands in front of all records or nowhere.
    Announcement,
    /// A record.
    Record(Record),
}
