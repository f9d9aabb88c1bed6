//! Payloads, checked without taking memory.
ghost use Rattle.std.specs.Prelude.{◌≡◌, ◌++◌, ◌↔◌, IsTrue, MatchOption};
ghost use Rattle.std.specs.List.{flat_map};
ghost use Rattle.feed_records.specs.Record.{packet_bytes, media_bytes, field_bytes, fields_bytes, entry_bytes, stream_bytes, skeleton_bytes};
ghost use Rattle.feed_codec.specs.RecordKind.{number_of};
ghost use Rattle.feed_codec.specs.Payload.{Begins, BeginsNone, AreMany, IsPacket, IsMedia, IsFieldOfFeed, AreFields, IsEntryOfFeed, IsStreamOfFeed, IsTail, IsBehind, skeleton_head_bytes, IsPayload};
ghost use Rattle.feed_records.specs.Tail.{tail_bytes, behind_bytes};
ghost use Rattle.feed_codec.specs.PayloadParts.{entry_of, tail_of};
ghost use Rattle.skeleton3.specs.Fields.{shown};
ghost use Rattle.ogg_command.specs.Command.{IsSkeleton, IsSkeletonHead};

use crate::head::RecordKind;
use feed_records::{COUNT, ENTRY_FRONT, LENGTH, SERIAL, STREAM_FRONT, TAIL, Version};
use ogg_command::SkeletonHead;
use ogg_page::{take_fraction, take_i64, take_u8, take_u16, take_u32, take_u64};

/// A Skeleton's head, without the byte that announces it.
const SKELETON_HEAD: usize = 56;

/// An entry of a put, where it lies.
#[derive(Clone, Copy)]
pub struct EntryPart<'a> {
    pub serial: u32,
    pub position: u64,
    pub packet: &'a [u8],
}

/// What follows a stream's headers, but for its message fields, where it lies.
#[derive(Clone, Copy)]
pub struct TailPart<'a> {
    pub media: &'a [u8],
    pub rate: (i64, i64),
    pub base_granule: i64,
    pub preroll: u32,
    pub shift: u8,
}

/// Whether the payload is exactly that of an item of this kind.
pub fn is_payload(version: Version, kind: RecordKind, payload: &[u8]) -> bool
    ensures { IsTrue result ↔ IsPayload version (number_of kind) payload.now }
{
    match kind {
        RecordKind::Announcement => is_announcement(version, payload),
        RecordKind::Begin => is_begin(version, payload),
        RecordKind::Put => is_put(version, payload),
        RecordKind::End => is_end(version, payload),
        RecordKind::Flush => is_flush(version, payload),
    }
}

/// An announcement holds the one byte 2.
fn is_announcement(_version: Version, payload: &[u8]) -> bool
    ensures { IsTrue result ↔ IsPayload _version 0 payload.now }
{
    matches!(payload, [2])
}

fn is_end(_version: Version, payload: &[u8]) -> bool
    ensures { IsTrue result ↔ IsPayload _version 3 payload.now }
{
    payload.len() == SERIAL
}

/// A flush has no payload.
fn is_flush(_version: Version, payload: &[u8]) -> bool
    ensures { IsTrue result ↔ IsPayload _version 4 payload.now }
{
    payload.is_empty()
}

fn is_begin(version: Version, payload: &[u8]) -> bool
    ensures { IsTrue result ↔ IsPayload version 1 payload.now }
{
    let Some((_, rest)) = split_skeleton(payload) else {
        return false;
    };
    if rest.len() < COUNT {
        return false;
    }
    let (count, rest) = take_u16(rest);
    match skip_streams(version, count, rest) {
        Some(rest) => rest.is_empty(),
        None => false,
    }
}

fn is_put(_version: Version, payload: &[u8]) -> bool
    ensures { IsTrue result ↔ IsPayload _version 2 payload.now }
{
    if payload.len() < COUNT {
        return false;
    }
    let (count, rest) = take_u16(payload);
    match skip_entries(count, rest) {
        Some(rest) => rest.is_empty(),
        None => false,
    }
}

/// The packet at the front, which follows its length, and the rest.
pub fn split_packet(bytes: &[u8]) -> Option<(&[u8], &[u8])>
    ensures { MatchOption result (BeginsNone IsPacket packet_bytes bytes.now)
        (λ (packet, rest). IsPacket packet.now × (bytes.now ≡ packet_bytes packet.now ++ rest.now)) }
{
    if bytes.len() < LENGTH {
        return None;
    }
    let (length, rest) = take_u32(bytes);
    rest.split_at_checked(length as usize)
}

/// The media type at the front, which follows its length, and the rest.
fn split_media(bytes: &[u8]) -> Option<(&[u8], &[u8])>
    ensures { MatchOption result (BeginsNone IsMedia media_bytes bytes.now)
        (λ (media, rest). IsMedia media.now × (bytes.now ≡ media_bytes media.now ++ rest.now)) }
{
    if bytes.len() < COUNT {
        return None;
    }
    let (length, rest) = take_u16(bytes);
    rest.split_at_checked(length as usize)
}

/// The message field at the front, and what follows.
pub fn split_field(bytes: &[u8]) -> Option<((&[u8], &[u8]), &[u8])>
    ensures { MatchOption result (BeginsNone IsFieldOfFeed field_bytes bytes.now)
        (λ (field, rest). IsFieldOfFeed (shown field) × (bytes.now ≡ field_bytes (shown field) ++ rest.now)) }
{
    let (name, rest) = split_media(bytes)?;
    let (value, rest) = split_media(rest)?;
    Some(((name, value), rest))
}

/// The entry at the front, and what follows.
pub fn split_entry(bytes: &[u8]) -> Option<(EntryPart<'_>, &[u8])>
    ensures { MatchOption result (BeginsNone IsEntryOfFeed entry_bytes bytes.now)
        (λ (part, rest). IsEntryOfFeed (entry_of part) × (bytes.now ≡ entry_bytes (entry_of part) ++ rest.now)) }
{
    if bytes.len() < ENTRY_FRONT {
        return None;
    }
    let (serial, rest) = take_u32(bytes);
    let (position, rest) = take_u64(rest);
    let (packet, rest) = split_packet(rest)?;
    let part = EntryPart {
        serial,
        position,
        packet,
    };
    Some((part, rest))
}

/// The Skeleton's head at the front, if there is to be one, and what follows.
pub fn split_skeleton(bytes: &[u8]) -> Option<(Option<SkeletonHead>, &[u8])>
    ensures { MatchOption result (BeginsNone IsSkeleton skeleton_bytes bytes.now)
        (λ (skeleton, rest). IsSkeleton skeleton × (bytes.now ≡ skeleton_bytes skeleton ++ rest.now)) }
{
    if bytes.is_empty() {
        return None;
    }
    let (announced, rest) = take_u8(bytes);
    match announced {
        0 => Some((None, rest)),
        1 => {
            let (head, rest) = split_skeleton_head(rest)?;
            Some((Some(head), rest))
        }
        _ => None,
    }
}

/// What follows a stream's headers, here at the front, and the rest.
pub fn split_tail(bytes: &[u8]) -> Option<(TailPart<'_>, &[u8])>
    ensures { MatchOption result (BeginsNone IsTail tail_bytes bytes.now)
        (λ (part, rest). IsTail (tail_of part) × (bytes.now ≡ tail_bytes (tail_of part) ++ rest.now)) }
{
    let (media, rest) = split_media(bytes)?;
    if rest.len() < TAIL {
        return None;
    }
    let (rate, rest) = take_fraction(rest);
    let (base_granule, rest) = take_i64(rest);
    let (preroll, rest) = take_u32(rest);
    let (shift, rest) = take_u8(rest);
    let part = TailPart {
        media,
        rate,
        base_granule,
        preroll,
        shift,
    };
    Some((part, rest))
}

/// The Skeleton's head at the front, and what follows.
fn split_skeleton_head(bytes: &[u8]) -> Option<(SkeletonHead, &[u8])>
    ensures { MatchOption result (BeginsNone IsSkeletonHead skeleton_head_bytes bytes.now)
        (λ (head, rest). IsSkeletonHead head × (bytes.now ≡ skeleton_head_bytes head ++ rest.now)) }
{
    if bytes.len() < SKELETON_HEAD {
        return None;
    }
    let (serial, rest) = take_u32(bytes);
    let (presentation, rest) = take_fraction(rest);
    let (base, rest) = take_fraction(rest);
    let (utc, rest) = rest.split_first_chunk::<20>()?;
    let head = SkeletonHead {
        serial,
        presentation,
        base,
        utc: *utc,
    };
    Some((head, rest))
}

/// What follows the first `count` entries.
fn skip_entries(count: u16, bytes: &[u8]) -> Option<&[u8]>
    ensures { MatchOption result (BeginsNone (AreMany IsEntryOfFeed count) (flat_map entry_bytes) bytes.now)
        (λ rest. Begins (AreMany IsEntryOfFeed count) (flat_map entry_bytes) bytes.now rest.now) }
{
    (0..count).try_fold(bytes, |rest, _| split_entry(rest).map(|part| part.1))
}

/// What follows the first `count` headers.
fn skip_headers(count: u16, bytes: &[u8]) -> Option<&[u8]>
    ensures { MatchOption result (BeginsNone (AreMany IsPacket count) (flat_map packet_bytes) bytes.now)
        (λ rest. Begins (AreMany IsPacket count) (flat_map packet_bytes) bytes.now rest.now) }
{
    (0..count).try_fold(bytes, |rest, _| split_packet(rest).map(|part| part.1))
}

/// What follows the first `count` message fields.
fn skip_each_field(count: u16, bytes: &[u8]) -> Option<&[u8]>
    ensures { MatchOption result (BeginsNone (AreMany IsFieldOfFeed count) (flat_map field_bytes) bytes.now)
        (λ rest. Begins (AreMany IsFieldOfFeed count) (flat_map field_bytes) bytes.now rest.now) }
{
    (0..count).try_fold(bytes, |rest, _| split_field(rest).map(|part| part.1))
}

/// What follows the message fields of a stream.
fn skip_fields(version: Version, bytes: &[u8]) -> Option<&[u8]>
    ensures { MatchOption result (BeginsNone (AreFields version) (fields_bytes version) bytes.now)
        (λ rest. Begins (AreFields version) (fields_bytes version) bytes.now rest.now) }
{
    match version {
        Version::One => Some(bytes),
        Version::Two => {
            if bytes.len() < COUNT {
                return None;
            }
            let (count, rest) = take_u16(bytes);
            skip_each_field(count, rest)
        }
    }
}

/// What comes after all that follows a stream's headers.
fn skip_behind(version: Version, bytes: &[u8]) -> Option<&[u8]>
    ensures { MatchOption result (BeginsNone (IsBehind version) (behind_bytes version) bytes.now)
        (λ rest. Begins (IsBehind version) (behind_bytes version) bytes.now rest.now) }
{
    let (_, rest) = split_tail(bytes)?;
    skip_fields(version, rest)
}

/// What follows the stream at the front.
fn skip_stream(version: Version, bytes: &[u8]) -> Option<&[u8]>
    ensures { MatchOption result (BeginsNone (IsStreamOfFeed version) (stream_bytes version) bytes.now)
        (λ rest. Begins (IsStreamOfFeed version) (stream_bytes version) bytes.now rest.now) }
{
    if bytes.len() < STREAM_FRONT {
        return None;
    }
    let (_, rest) = take_u32(bytes);
    let (count, rest) = take_u16(rest);
    let rest = skip_headers(count, rest)?;
    skip_behind(version, rest)
}

/// What follows the first `count` streams.
fn skip_streams(version: Version, count: u16, bytes: &[u8]) -> Option<&[u8]>
    ensures { MatchOption result (BeginsNone (AreMany (IsStreamOfFeed version) count) (flat_map (stream_bytes version)) bytes.now)
        (λ rest. Begins (AreMany (IsStreamOfFeed version) count) (flat_map (stream_bytes version)) bytes.now rest.now) }
{
    (0..count).try_fold(bytes, |rest, _| skip_stream(version, rest))
}
