//! What a Skeleton says of its link and of the link's streams.
ghost use Rattle.std.specs.Prelude.{◌≡◌, IfOk, Some, if◌then◌else◌, nat_eq};
ghost use Rattle.std.specs.List.{AllZip, list_all};
ghost use Rattle.skeleton3.specs.Fisbone.{fisbone_of};
ghost use Rattle.import_changes.specs.Said.{IsDescribedBy, IsHeadSaid, described, described_as, is_unknown};
ghost use Rattle.import_changes.specs.Steps.{IsDescribedUnder};

use crate::renaming::take_name;
use crate::saying::{fields_said, found_in, head_in};
use crate::skeletons::first_header;
use import_commands::{Codec, rate_of, shift_of};
use ogg_command::{Listed, Memory, NewStream, SkeletonHead};
use skeleton3::Fisbone;
use std::alloc::Global;

/// Whether twenty bytes say that the time of day isn't known.
fn is_unknown(utc: &[u8; 20]) -> bool
    ensures { result ≡ is_unknown utc.now }
{
    utc.iter().all(|byte| 0 == *byte)
}

/// The time of day that a Skeleton says, or this one if it says none.
fn utc_said(said: [u8; 20], utc: [u8; 20]) -> [u8; 20]
    ensures { result ≡ (if is_unknown said then utc else said) }
{
    if is_unknown(&said) { utc } else { said }
}

/// The head of a Skeleton with this serial, with the times that the Skeletons with these packets say. If they say
/// none, its link is presented from 0 seconds on, at this time of day.
pub fn head_said(said: &[Listed<u8>], serial: u32, utc: [u8; 20]) -> SkeletonHead
    ensures said { IsHeadSaid utc said.now result }
    ensures serial { result.serial ≡ serial }
{
    match head_in(first_header(said)) {
        Some(fishead) => {
            let utc = utc_said(fishead.utc, utc);
            SkeletonHead {
                serial,
                presentation: fishead.presentation,
                base: fishead.base,
                utc,
            }
        }
        None => SkeletonHead {
            serial,
            presentation: (0, 1000),
            base: (0, 1000),
            utc,
        },
    }
}

/// The stream described as its first header says.
fn described(alloc: Global, stream: NewStream) -> Result<NewStream, Memory>
    ensures { IfOk result (λ now. now ≡ described stream) }
{
    let first = first_header(stream.headers.as_slice());
    let codec = Codec::of(first);
    let rate = rate_of(first);
    let shift = shift_of(first);
    let media = codec.media_type().as_bytes().to_vec(alloc)?;
    Ok(NewStream {
        serial: stream.serial,
        headers: stream.headers,
        media: Listed::of(media),
        fields: Listed::of(Vec::new(alloc)),
        rate,
        base_granule: 0,
        preroll: codec.preroll(),
        shift,
    })
}

/// The stream, described as this packet says, which is read as this fisbone.
fn described_as(
    alloc: Global,
    packet: &[u8],
    fisbone: Fisbone<'_>,
    stream: NewStream,
) -> Result<NewStream, Memory>
    ensures { IfOk result (λ now. now ≡ described_as (Some (packet.now, fisbone_of fisbone.entry)) stream) }
{
    let media = fisbone.media.to_vec(alloc)?;
    let fields = fields_said(alloc, packet)?;
    Ok(NewStream {
        serial: stream.serial,
        headers: stream.headers,
        media: Listed::of(media),
        fields: Listed::of(fields),
        rate: fisbone.rate,
        base_granule: fisbone.base_granule,
        preroll: fisbone.preroll,
        shift: fisbone.shift,
    })
}

/// The stream, described as the Skeletons with these packets say, or as its first header says if they don't.
fn described_by(alloc: Global, said: &[Listed<u8>], stream: NewStream) -> Result<NewStream, Memory>
    ensures described { IfOk result (λ now. IsDescribedBy said.now stream now) }
    ensures serial { IfOk result (λ now. now.serial ≡ stream.serial) }
{
    match found_in(said, stream.serial) {
        Some((packet, fisbone)) => described_as(alloc, packet, fisbone, stream),
        None => described(alloc, stream),
    }
}

/// The streams under the serials that they have now, described in this way.
pub fn all_described(
    alloc: Global,
    said: &[Listed<u8>],
    names: &[(u32, u32)],
    streams: Vec<NewStream>,
) -> Result<Vec<NewStream>, Memory>
    ensures { IfOk result (λ now. AllZip (IsDescribedUnder names.now said.now) streams.items now.items) }
{
    let mut now = Vec::new(alloc);
    for stream in streams {
        let mut described = described_by(alloc, said, stream)?;
        take_name(names, &mut described);
        now.push(described)?;
    }
    Ok(now)
}
