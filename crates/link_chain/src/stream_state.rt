//! What the rules depend on of a stream of the last link.

/// What the rules depend on of a stream of the last link.
#[derive(Clone, Copy, Debug, Default, PartialEq, Eq)]
pub struct StreamState {
    /// The stream's serial.
    pub serial: u32,
    /// One more than the sequence number of its last page.
    pub next_sequence: u64,
    /// The position of its last page that has one of at most 2^63 - 1, else 0.
    pub last_position: u64,
    /// Whether it has its last page.
    pub ended: bool,
    /// Whether its last packet is whole.
    pub finished: bool,
}

impl StreamState {
    /// What is read at a place without a stream.
    pub const NOBODY: StreamState = StreamState {
        serial: 0,
        next_sequence: 0,
        last_position: 0,
        ended: false,
        finished: false,
    };
}
