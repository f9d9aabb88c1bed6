//! What a link of lines begins with.
ghost use Rattle.std.specs.Prelude.{◌≡◌, ◌∷◌, ◌≤◌, [], IfOk, length};
ghost use Rattle.line_packets.specs.Begin.{BeginsAt, header, name_field, streams_from};

use crate::Memory;
use crate::streams::Streams;
use archive_clock::utc_of;
use ogg_command::{Begin, Listed, NewStream, SkeletonHead};
use skeleton3::Field;
use std::alloc::Global;

/// The first packet of each stream, which says what it is: a magic of eight bytes, the version, three zeros, and how many
/// units of its positions a second has.
const HEADER: [u8; 16] = [
    b'L', b'i', b'n', b'e', b'H', b'e', b'a', b'd', 1, 0, 0, 0, 232, 3, 0, 0,
];

/// The header packets of a stream.
fn headers(alloc: Global) -> Result<Listed<Listed<u8>>, Memory>
    ensures { IfOk result (λ headers. headers ≡ header ∷ []) }
{
    let mut headers = Vec::new(alloc);
    headers.push(Listed::of(HEADER.to_vec(alloc)?))?;
    Ok(Listed::of(headers))
}

/// The message fields of a stream with this name.
fn fields(alloc: Global, name: &[u8]) -> Result<Listed<Field>, Memory>
    ensures { IfOk result (λ fields. fields ≡ name_field name.now ∷ []) }
{
    let mut fields = Vec::new(alloc);
    fields.push(Field::of(b"Name".to_vec(alloc)?, name.to_vec(alloc)?))?;
    Ok(Listed::of(fields))
}

/// The streams with these names, in order, under the serials from this one on.
fn new_streams(
    alloc: Global,
    names: &[Listed<u8>],
    media: &[u8],
) -> Result<Listed<NewStream>, Memory>
    requires { length names.now ≤ 63 }
    ensures { IfOk result (λ streams. streams ≡ streams_from 1 media.now names.now) }
{
    let mut streams = Vec::new(alloc);
    let mut serial = 1;
    let mut rest = names;
    while let Some((name, others)) = rest.split_first() {
        streams.push(NewStream {
            serial,
            headers: headers(alloc)?,
            media: Listed::of(media.to_vec(alloc)?),
            fields: fields(alloc, name.as_slice())?,
            rate: (1000, 1),
            base_granule: 0,
            preroll: 0,
            shift: 0,
        })?;
        serial += 1;
        rest = others;
    }
    Ok(Listed::of(streams))
}

impl Streams {
    /// What begins a link of these streams at this time, in milliseconds since 1970. It has a Skeleton that tells their
    /// names, this media type, and that a second has 1,000 units of their positions.
    pub fn begin(&self, alloc: Global, media: &[u8], time: u64) -> Result<Begin, Memory>
        ensures { IfOk result (BeginsAt time media.now self.now) }
    {
        let streams = new_streams(alloc, self.names.as_slice(), media)?;
        let skeleton = SkeletonHead {
            serial: 0,
            presentation: (0, 1),
            base: (0, 1),
            utc: utc_of(time),
        };
        Ok(Begin {
            skeleton: Some(skeleton),
            streams,
        })
    }
}
