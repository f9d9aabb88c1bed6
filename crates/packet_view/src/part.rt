//! A part of a packet, lent out of a window.

/// A part of a packet (RFC 3533, sections 5 and 6): what one page has of it, lent until its stream is used again. A
/// packet has a part for each page that has a lacing value of it.
#[derive(Clone, Copy, Debug)]
pub struct Part<'a> {
    /// The bytes, in the window's page. There may be none.
    pub bytes: &'a [u8],
    /// Whether the packet begins with them.
    pub first: bool,
    /// Whether the packet ends with them.
    pub last: bool,
    /// The position of the page, if the packet is the last that ends there and the page has one.
    pub position: Option<u64>,
}
