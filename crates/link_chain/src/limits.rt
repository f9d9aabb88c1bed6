//! What a chain may hold. `specs/Limits.antt` says where each comes from.

/// The greatest number of streams of a link.
pub const MOST_STREAMS: usize = 64;

/// The greatest number of links of a file.
pub const MOST_LINKS: u64 = 65_536;

/// The number of positions that a packet may have.
pub const POSITIONS: u64 = 1 << 63;
