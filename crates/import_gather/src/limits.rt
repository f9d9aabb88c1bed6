//! How much is kept. `specs/Limits.antt` says where each comes from.

/// The greatest number of headers of a stream in a `Begin`.
pub const MOST_HEADERS: usize = 256;

/// The greatest number of bytes of a packet.
pub const LONGEST_PACKET: usize = 8_388_608;

/// How many bytes the headers of a waiting link may have together. One further page may go beyond
/// it.
pub const MOST_KEPT: usize = 4_194_304;
