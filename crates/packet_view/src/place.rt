//! How far a stream has been read.
ghost use Rattle.std.specs.Prelude.{◌+◌, ◌^◌, ◌<◌, ◌≤◌, length};

use crate::unread::Unread;

/// What has been read of a stream, as far as its next page must fit it.
#[derive(Clone, Copy, Debug)]
pub(crate) struct Behind {
    /// The number that follows that of the stream's last page so far, if there was one.
    pub number: Option<u64>,
    /// Whether that page was marked as the stream's last.
    pub ended: bool,
}

/// How far a stream has been read.
#[derive(Clone, Copy, Debug)]
pub(crate) struct Place<'a> {
    pub behind: Behind,
    /// What is left of the stream's last page so far.
    pub unread: Unread<'a>,
    /// What comes after that page.
    pub rest: &'a [u8],
    /// Where `rest` begins in the source.
    pub offset: u64,
    ghost inside: { offset + length rest.now < 2 ^ 64 },
    ghost before: { unread.place + length unread.body.now ≤ offset },
}
