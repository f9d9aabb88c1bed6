//! Feeds that several crates of tests run while memory is refused.
#![tactic(auto)]

use std::alloc::{AllocError as Memory, Global};

/// One stream begins, with serial 1 and the header `abc`.
const BEGIN: &[u8] = b"\x01\x2f\0\0\0\0\x01\0\x01\0\0\0\x01\0\x03\0\0\0abc\0\0\
    \0\0\0\0\0\0\0\0\0\0\0\0\0\0\0\0\0\0\0\0\0\0\0\0\0\0\0\0\0";

/// The same with the headers `abc`, `de` and `f`.
pub const BEGIN_THREE: &[u8] = b"\x01\x3a\0\0\0\0\x01\0\x01\0\0\0\x03\0\
    \x03\0\0\0abc\x02\0\0\0de\x01\0\0\0f\0\0\
    \0\0\0\0\0\0\0\0\0\0\0\0\0\0\0\0\0\0\0\0\0\0\0\0\0\0\0\0\0";

/// Two streams begin, with serials 1 and 2 and the header `abc`.
pub const BEGIN_TWO: &[u8] = b"\x01\x5b\0\0\0\0\x02\0\
    \x01\0\0\0\x01\0\x03\0\0\0abc\0\0\
    \0\0\0\0\0\0\0\0\0\0\0\0\0\0\0\0\0\0\0\0\0\0\0\0\0\0\0\0\0\
    \x02\0\0\0\x01\0\x03\0\0\0abc\0\0\
    \0\0\0\0\0\0\0\0\0\0\0\0\0\0\0\0\0\0\0\0\0\0\0\0\0\0\0\0\0";

/// A stream of type `audio/vorbis` and rate 44100/1 begins, and a Skeleton of serial 9 with times 0/1000.
pub const BEGIN_DESCRIBED: &[u8] = b"\x01\x73\0\0\0\x01\x09\0\0\0\
    \0\0\0\0\0\0\0\0\xe8\x03\0\0\0\0\0\0\0\0\0\0\0\0\0\0\xe8\x03\0\0\0\0\0\0\
    \0\0\0\0\0\0\0\0\0\0\0\0\0\0\0\0\0\0\0\0\
    \x01\0\x01\0\0\0\x01\0\x03\0\0\0abc\x0c\0audio/vorbis\
    \x44\xac\0\0\0\0\0\0\x01\0\0\0\0\0\0\0\0\0\0\0\0\0\0\0\0\0\0\0\0";

/// Stream 1 gets `a`, `b` and `d`, and stream 2 gets `c` before the last of them.
pub const PUT_FOUR: &[u8] = b"\x02\x46\0\0\0\x04\0\
    \x01\0\0\0\0\0\0\0\0\0\0\0\x01\0\0\0a\x01\0\0\0\0\0\0\0\0\0\0\0\x01\0\0\0b\
    \x02\0\0\0\0\0\0\0\0\0\0\0\x01\0\0\0c\x01\0\0\0\0\0\0\0\0\0\0\0\x01\0\0\0d";

/// A begin, and a put of packets whose lengths are multiples of 255, or nearly: 0, 254, 255 and 510 zeros.
pub const ZEROS: [&[u8]; 8] = [
    BEGIN,
    b"\x02\x3d\x04\0\0\x04\0\x01\0\0\0\0\0\0\0\0\0\0\0\0\0\0\0",
    b"\x01\0\0\0\0\0\0\0\0\0\0\0\xfe\0\0\0",
    &[0; 254],
    b"\x01\0\0\0\0\0\0\0\0\0\0\0\xff\0\0\0",
    &[0; 255],
    b"\x01\0\0\0\0\0\0\0\0\0\0\0\xfe\x01\0\0",
    &[0; 510],
];

fn joined(alloc: Global, parts: &[&[u8]]) -> Result<Vec<u8>, Memory> {
    let mut bytes = Vec::new(alloc);
    for part in parts {
        bytes.extend_from_slice(part)?;
    }
    Ok(bytes)
}

/// The parts in a row. They are joined once more if memory is refused, so one refusal is no fault of a test.
pub fn bytes_of(alloc: Global, parts: &[&[u8]]) -> Result<Vec<u8>, Memory> {
    match joined(alloc, parts) {
        Ok(bytes) => Ok(bytes),
        Err(_) => joined(alloc, parts),
    }
}
