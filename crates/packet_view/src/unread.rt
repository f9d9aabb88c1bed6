//! What hasn't been read of a page, and the front of it that is of one packet.
ghost use Rattle.std.specs.Prelude.{◌≡◌, ◌+◌, ◌^◌, ◌<◌, length, sum};

/// What hasn't been read of a page.
#[derive(Clone, Copy, Debug)]
pub(crate) struct Unread<'a> {
    pub lacing: &'a [u8],
    pub body: &'a [u8],
    /// Where the body's first byte is in the source.
    pub place: u64,
    /// The position of the last packet that ends in the page.
    pub position: Option<u64>,
    ghost whole: { sum lacing.now ≡ length body.now },
    ghost fits: { place + length body.now < 2 ^ 64 },
}

/// The front of a page that is of one packet.
pub(crate) enum Front<'a> {
    /// The packet ends with these bytes, and this is left of the page.
    Ends(&'a [u8], Unread<'a>),
    /// These are all bytes of the page, and the packet goes on; if there are none, no packet goes on.
    GoesOn(&'a [u8]),
}
