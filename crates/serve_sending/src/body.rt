//! The part of a file that follows a text.

/// The bytes of a file that are left to be sent. Places and counts are in bytes.
#[derive(Clone, Copy, Debug, PartialEq, Eq)]
pub enum Body {
    /// No bytes.
    Nothing,
    /// This many bytes, from the place on.
    Part(u64, u64),
    /// Pages with this serial, from the page at the place on: some bytes of them are passed over, and then this many
    /// are left.
    Stream(u32, u64, u64, u64),
}
