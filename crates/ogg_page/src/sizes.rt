//! The sizes of a page (RFC 3533, sections 5 and 6).

/// How many bytes come before the lacing values.
pub const FIXED_SIZE: usize = 27;

/// How many bytes there are up to the end of the sequence number, with which the checksum begins.
pub const SEQUENCE_END: usize = 22;

/// How many lacing values a page has at most.
pub const MOST_VALUES: usize = 255;

/// The lacing value of a whole segment: the packet goes on.
pub const FULL_VALUE: u8 = 255;

/// How many bytes a whole segment has.
pub const SEGMENT: usize = 255;

/// No page has more bytes.
pub const LONGEST_PAGE: usize = 65_307;
