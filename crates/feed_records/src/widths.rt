//! How many bytes the parts of a record have whose size is always the same, and how many a payload may have.

/// A record's head: the number of its kind, and the length of its payload.
pub const HEAD: usize = 5;

/// The longest payload.
pub const MOST_PAYLOAD: usize = 33_554_432;

/// A count, and the length of a media type, or of a message field's name or value.
pub const COUNT: usize = 2;

/// The length of a packet.
pub const LENGTH: usize = 4;

/// A stream's serial.
pub const SERIAL: usize = 4;

/// What stands before a stream's headers: its serial, and their number.
pub const STREAM_FRONT: usize = SERIAL + COUNT;

/// What stands before an entry's packet: the serial and the position.
pub const ENTRY_FRONT: usize = SERIAL + 8;

/// What stands after a stream's media type: the rate, the base granule, the preroll and the shift.
pub const TAIL: usize = 29;

/// An entry, without the bytes of its packet.
pub const ENTRY: usize = ENTRY_FRONT + LENGTH;

/// A stream, without its headers, the bytes of its media type and its message fields.
pub const STREAM: usize = STREAM_FRONT + COUNT + TAIL;

/// A message field, without the bytes of its name and its value.
pub const FIELD: usize = 2 * COUNT;
