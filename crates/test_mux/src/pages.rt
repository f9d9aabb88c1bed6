//! Pages of the stream with serial 1, written out by hand.

/// Its first page, with the header `abc`.
pub const FIRST: &[u8] =
    b"OggS\x00\x02\0\0\0\0\0\0\0\0\x01\0\0\0\0\0\0\0\x92\xdd\xf6\x15\x01\x03abc";

/// Its second page, with the packet `hello` at position 5.
pub const SECOND: &[u8] =
    b"OggS\0\0\x05\0\0\0\0\0\0\0\x01\0\0\0\x01\0\0\0\xbb\xfev\xea\x01\x05hello";

/// Its last page, at position 5, without a packet.
pub const THIRD: &[u8] = b"OggS\0\x04\x05\0\0\0\0\0\0\0\x01\0\0\0\x02\0\0\0\xdb\x9d\x91\x8b\0";
