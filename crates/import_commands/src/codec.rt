//! What a stream's first packet says of it. Only this and the count of headers depend on what a packet says.
ghost use Rattle.std.specs.Prelude.{◌≡◌, ◌+◌, ◌≤◌, ◌*◌, ◌/◌, ◌%◌, ◌<◌, max, pos, slice_index};
ghost use Rattle.import_commands.specs.Headers.{header_count};
ghost use Rattle.import_commands.specs.Codecs.{codec_of, four_at, headers_by, high_first, low_first, media_type_of, preroll_of, rate, rate_of, shift_of};

use crate::headers::byte_at;

/// How a stream's packets are to be understood.
#[derive(Clone, Copy, Debug, PartialEq, Eq)]
pub enum Codec {
    /// Vorbis.
    Vorbis,
    /// Theora.
    Theora,
    /// Opus.
    Opus,
    /// FLAC.
    Flac,
    /// Speex.
    Speex,
    /// None of these.
    Other,
}

impl Codec {
    /// The codec of a stream, by its first packet.
    pub fn of(first: &[u8]) -> Codec
        ensures codec { result ≡ codec_of first.now }
        // and so how many packets are headers
        ensures headers { header_count first.now ≡ headers_by result first.now }
    {
        if first.starts_with(b"\x01vorbis") {
            Codec::Vorbis
        } else if first.starts_with(b"\x80theora") {
            Codec::Theora
        } else if first.starts_with(b"OpusHead") {
            Codec::Opus
        } else if first.starts_with(b"\x7FFLAC") {
            Codec::Flac
        } else if first.starts_with(b"Speex   ") {
            Codec::Speex
        } else {
            Codec::Other
        }
    }

    /// The media type of its streams, as registered; for a codec that isn't known `application/octet-stream`.
    pub fn media_type(self) -> &'static str
        ensures { result.now ≡ media_type_of self }
    {
        match self {
            Codec::Vorbis => "audio/vorbis",
            Codec::Theora => "video/theora",
            Codec::Opus => "audio/opus",
            Codec::Flac => "audio/flac",
            Codec::Speex => "audio/speex",
            Codec::Other => "application/octet-stream",
        }
    }

    /// How many packets a decoder takes before the first that is right.
    pub fn preroll(self) -> u32
        ensures { result ≡ preroll_of self }
    {
        match self {
            Codec::Vorbis => 2,
            Codec::Opus => 4,
            Codec::Speex => 3,
            Codec::Theora | Codec::Flac | Codec::Other => 0,
        }
    }
}

/// How many units of its position a second of the stream has, as a numerator and a denominator, by its first packet.
/// Both are positive: a rate that is 0 in the packet counts as 1, and so does that of a codec that isn't known.
pub fn rate_of(first: &[u8]) -> (i64, i64)
    ensures { result ≡ rate_of first.now }
{
    match Codec::of(first) {
        Codec::Vorbis => rate(low_first(first, 12), 1),
        Codec::Theora => rate(high_first(first, 22), high_first(first, 26)),
        Codec::Opus => rate(48_000, 1),
        Codec::Flac => rate(high_first(first, 27) / 4096, 1),
        Codec::Speex => rate(low_first(first, 36), 1),
        Codec::Other => rate(1, 1),
    }
}

/// How many low bits of the stream's positions count from the last key frame, by its first packet.
pub fn shift_of(first: &[u8]) -> u8
    ensures { result ≡ shift_of first.now }
{
    match Codec::of(first) {
        Codec::Theora => byte_at(first, 40) % 4 * 8 + byte_at(first, 41) / 32,
        _ => 0,
    }
}

/// A rate of positive numbers.
fn rate(numerator: u32, denominator: u32) -> (i64, i64)
    ensures { result ≡ rate numerator denominator }
{
    (i64::from(numerator.max(1)), i64::from(denominator.max(1)))
}

/// The number of four bytes from a place on, the lowest first.
fn low_first(bytes: &[u8], at: usize) -> u32
    requires { at < 100 }
    ensures { result ≡ low_first bytes.now at }
{
    u32::from_le_bytes(four_at(bytes, at))
}

/// The same, the highest first.
fn high_first(bytes: &[u8], at: usize) -> u32
    requires { at < 100 }
    ensures { result ≡ high_first bytes.now at }
{
    u32::from_be_bytes(four_at(bytes, at))
}

/// The bytes from a place on; after the end they are 0.
fn four_at(bytes: &[u8], at: usize) -> [u8; 4]
    requires { at < 100 }
    ensures { result ≡ four_at bytes.now at }
{
    [
        byte_at(bytes, at),
        byte_at(bytes, at + 1),
        byte_at(bytes, at + 2),
        byte_at(bytes, at + 3),
    ]
}
