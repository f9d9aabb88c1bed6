//! What an index says of a link and of a stream.

/// A link of the file: a group of logical streams (RFC 3533, section 4).
#[derive(Clone, Copy, Debug, PartialEq, Eq)]
pub struct LinkInfo {
    /// The offset of its first byte.
    pub start: u64,
    /// How many bytes its pages have.
    pub length: u64,
    /// How many streams it has.
    pub streams: u32,
}

/// A logical stream, within its link.
#[derive(Clone, Copy, Debug, PartialEq, Eq)]
pub struct StreamInfo {
    /// The serial number that its pages have.
    pub serial: u32,
    /// How many bytes its pages have, with their heads.
    pub bytes: u64,
    /// How many pages it has.
    pub pages: u64,
    /// Whether it has its last page.
    pub ended: bool,
}
