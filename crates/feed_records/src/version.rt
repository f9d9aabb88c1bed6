//! The versions of feeds.

/// The kind of the record that announces a feed's version.
pub const ANNOUNCEMENT: u8 = 0;

/// How the begin records of a feed are spelled. A feed is of version 1 unless its first record announces version 2.
#[derive(Clone, Copy, Debug, PartialEq, Eq)]
pub enum Version {
    /// Streams have no message fields.
    One,
    /// Each stream ends with its message fields.
    Two,
}
