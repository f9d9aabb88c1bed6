//! How many streams are few, how many sequence numbers there are, and the one size that is always the same.

use ogg_page::FIXED_SIZE;

/// A link with at most this many streams has few.
pub const FEW_STREAMS: usize = 4;

/// How many sequence numbers there are (RFC 3533, section 6, field 6).
pub const SEQUENCES: u64 = 1 << 32;

/// Bytes of the page that ends a stream: it has no lacing values and no body (RFC 3533, section 6).
pub const SIZE_OF_END: u64 = FIXED_SIZE as u64;
