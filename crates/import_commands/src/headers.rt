//! How many of a stream's packets are headers.
ghost use Rattle.std.specs.Prelude.{◌≡◌, ◌+◌, ◌*◌, slice_index};
ghost use Rattle.import_commands.specs.Headers.{begins, flac_headers, header_count, is_flac, is_opus, is_speex, is_theora, is_vorbis, speex_headers};

use crate::codec::Codec;

/// How many of a stream's packets are headers, by the first. For a codec that isn't known it is only the first.
pub fn header_count(first: &[u8]) -> u32
    ensures { result ≡ header_count first.now }
{
    match Codec::of(first) {
        Codec::Vorbis | Codec::Theora => 3,
        Codec::Opus => 2,
        Codec::Flac => 1 + number_of(byte_at(first, 8), byte_at(first, 7)),
        Codec::Speex => 2 + number_of(byte_at(first, 68), byte_at(first, 69)),
        Codec::Other => 1,
    }
}

/// A number of two bytes.
fn number_of(low: u8, high: u8) -> u32
    ensures { result ≡ high * 256 + low }
{
    u32::from(high) * 256 + u32::from(low)
}

/// The byte at a place, or 0 after the end.
pub(crate) fn byte_at(bytes: &[u8], at: usize) -> u8
    ensures { result ≡ slice_index bytes.now at }
{
    match bytes.get(at) {
        Some(byte) => *byte,
        None => 0,
    }
}
