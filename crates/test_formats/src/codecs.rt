//! First packets of encoders' files, and what they say of their streams.
use import_commands::{Codec, header_count, rate_of, shift_of};

/// The front of a first packet as an encoder wrote it, and the count.
const FIRSTS: [(&[u8], u32); 9] = [
    (b"\x01vorbis\0\0\0\0\x01\x80\xbb", 3),
    (b"\x80theora\x03\x02\x01\0\x14\0\x0f", 3),
    (b"OpusHead\x01\x01\x38\x01\x80\xbb", 2),
    (b"\x7fFLAC\x01\0\0\x01fLaC\0\0\0\x22", 2),
    (b"\x7fFLAC\x01\0\x01\x02fLaC\0\0\0\x22", 259),
    (b"Speex   1.2.1", 2),
    (b"fishead\0\x03\0\0\0", 1),
    (b"\x01vorbi", 1),
    (b"", 1),
];

#[test]
fn headers_are_counted_by_the_first_packet(rt: HostRuntime) {
    for &(first, count) in &FIRSTS {
        assert!(rt; header_count(first) == count);
    }
}

/// What a first packet says of its stream: the codec, its media type, the rate, the preroll and the shift.
type Said = (Codec, &'static str, (i64, i64), u32, u8);

/// First packets that encoders wrote, and what they say.
const PACKETS: [(&[u8], Said); 8] = [
    (
        b"\x01vorbis\0\0\0\0\x01\x44\xAC\0\0\0\0\0\0\x80\x38\x01\0\0\0\0\0\xB8\x01",
        (Codec::Vorbis, "audio/vorbis", (44_100, 1), 2, 0),
    ),
    (
        b"\x80theora\x03\x02\x01\0\x04\0\x03\0\0\x40\0\0\x30\0\0\0\0\x75\x30\0\0\x03\xE9\0\0\x01\0\0\x01\0\x03\x0D\x40\0\xD8",
        (Codec::Theora, "video/theora", (30_000, 1_001), 0, 6),
    ),
    (
        b"OpusHead\x01\x01\x38\x01\x80\xBB\0\0\0\0\0",
        (Codec::Opus, "audio/opus", (48_000, 1), 4, 0),
    ),
    (
        b"\x7FFLAC\x01\0\0\x01fLaC\0\0\0\x22\x12\0\x12\0\0\0\0\0\x24\x15\x0A\xC4\x40\xF0\0\0\0\0",
        (Codec::Flac, "audio/flac", (44_100, 1), 0, 0),
    ),
    (
        b"Speex   1.2.1\0\0\0\0\0\0\0\0\0\0\0\0\0\0\0\x01\0\0\0\x50\0\0\0\x80\x3E\0\0\x01\0\0\0",
        (Codec::Speex, "audio/speex", (16_000, 1), 3, 0),
    ),
    // a first packet that is cut short, and two of codecs that aren't known
    (b"\x01vorbis", (Codec::Vorbis, "audio/vorbis", (1, 1), 2, 0)),
    (
        b"fishead\0\x03\0\0\0",
        (Codec::Other, "application/octet-stream", (1, 1), 0, 0),
    ),
    (
        b"",
        (Codec::Other, "application/octet-stream", (1, 1), 0, 0),
    ),
];

/// What is read of a first packet.
fn said(packet: &[u8]) -> Said {
    let codec = Codec::of(packet);
    (
        codec,
        codec.media_type(),
        rate_of(packet),
        codec.preroll(),
        shift_of(packet),
    )
}

#[test]
fn first_packets_describe_their_streams(rt: HostRuntime) {
    for &(packet, want) in &PACKETS {
        assert!(rt; said(packet) == want);
    }
}
