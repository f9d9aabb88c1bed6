//! What a file may hold. `specs/Limits.antt` says where each comes from.

/// The greatest number of bytes of a stream's first header.
pub const LONGEST_FIRST: usize = 65_024;

/// The greatest number of bytes of any other packet.
pub const LONGEST_PACKET: usize = 8_388_608;

/// The greatest number of bytes of a command's packets together.
pub const LONGEST_BATCH: u64 = 16_777_216;

/// The greatest number of headers of a stream.
pub const MOST_HEADERS: usize = 256;

/// The greatest number of packets of a put.
pub const MOST_ENTRIES: usize = 4_096;

/// The greatest number of bytes of a file, with the byte that follows its pages while it is
/// written.
pub const LONGEST_FILE: u64 = 1 << 40;
