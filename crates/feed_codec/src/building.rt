//! Records, built from payloads that have been checked.
ghost use Rattle.std.specs.Prelude.{◌≡◌, ◌≢◌, ◌++◌, [], IfOk, OnErr, List, ℕ, vec_capacity};
ghost use Rattle.feed_codec.specs.Building.{LacksRoomOf, Makes, SpellsCommand};
ghost use Rattle.feed_codec.specs.Room.{LacksEntryRoom, rooms_of};
ghost use Rattle.ogg_command.specs.declared.command.Entry.{Entry as EntryOf};
ghost use Rattle.std.specs.List.{flat_map};
ghost use Rattle.feed_records.specs.Record.{packet_bytes, field_bytes, fields_bytes, entry_bytes, stream_bytes};
ghost use Rattle.feed_codec.specs.RecordKind.{number_of};
ghost use Rattle.feed_codec.specs.Payload.{Begins, AreMany, IsPacket, IsFieldOfFeed, AreFields, IsEntryOfFeed, IsStreamOfFeed, IsPayload};
ghost use Rattle.skeleton3.specs.Fields.{shown};

use crate::head::RecordKind;
use crate::payload::{split_entry, split_field, split_packet, split_skeleton, split_tail};
use crate::spare::Spare;
use feed_records::{Record, Version};
use feed_replies::FeedFault;
use ogg_command::{Begin, Command, Entry, Listed, Memory, NewStream, Put};
use ogg_page::{take_u16, take_u32};
use skeleton3::Field;
use std::alloc::Global;

/// The record that the payload spells. A put is made of spare memory, as far as there is some. The fault is `Memory`.
pub fn build_record(
    alloc: Global,
    spare: &mut Spare,
    version: Version,
    kind: RecordKind,
    payload: &[u8],
) -> Result<Option<Record>, FeedFault>
    requires record { kind ≢ RecordKind.Announcement }
    requires payload { IsPayload version (number_of kind) payload.now }
    ensures { Makes (vec_capacity spare.old.entries) (rooms_of spare.old.packets.items) version (number_of kind) payload.now result }
{
    // Each record is made where it is returned: to move one from enum to enum costs more than all else of a small put.
    match kind {
        RecordKind::Announcement => unreachable!(),
        RecordKind::Begin => {
            let begin = begin_of(alloc, version, payload)?;
            Ok(Some(Record::Command(Command::Begin(begin))))
        }
        RecordKind::Put => {
            let put = put_of(alloc, spare, version, payload)?;
            Ok(Some(Record::Command(Command::Put(put))))
        }
        RecordKind::End => {
            let serial = serial_of(version, payload);
            Ok(Some(Record::Command(Command::End(serial))))
        }
        RecordKind::Flush => Ok(Some(Record::Flush)),
    }
}

fn serial_of(_version: Version, payload: &[u8]) -> u32
    requires { IsPayload _version 3 payload.now }
    ensures { SpellsCommand _version payload.now (Command.End result) }
{
    let (serial, _) = take_u32(payload);
    serial
}

fn begin_of(alloc: Global, version: Version, payload: &[u8]) -> Result<Begin, Memory>
    requires { IsPayload version 1 payload.now }
    ensures { IfOk result (λ begin. SpellsCommand version payload.now (Command.Begin begin)) }
{
    let (skeleton, rest) = split_skeleton(payload).unwrap();
    let (count, rest) = take_u16(rest);
    let streams = streams_of(alloc, version, count, rest)?;
    Ok(Begin { skeleton, streams })
}

/// The put that the payload spells, made of spare memory, as far as there is some.
#[inline(always)]
pub fn put_of(
    alloc: Global,
    spare: &mut Spare,
    _version: Version,
    payload: &[u8],
) -> Result<Put, Memory>
    requires { IsPayload _version 2 payload.now }
    ensures ok { IfOk result (λ put. SpellsCommand _version payload.now (Command.Put put)) }
    ensures full { OnErr result
        (LacksRoomOf (vec_capacity spare.old.entries) (rooms_of spare.old.packets.items) _version 2 payload.now) }
{
    let (count, rest) = take_u16(payload);
    let entries = entries_of(alloc, spare, count, rest)?;
    Ok(Put { entries })
}

/// The entries that the bytes spell.
fn entries_of(
    alloc: Global,
    spare: &mut Spare,
    count: u16,
    bytes: &[u8],
) -> Result<Listed<Entry>, Memory>
    requires { Begins (AreMany IsEntryOfFeed count) (flat_map entry_bytes) bytes.now [] }
    ensures ok { IfOk result (λ entries. AreMany IsEntryOfFeed count entries × (bytes.now ≡ flat_map entry_bytes entries)) }
    ensures full { OnErr result ((entries : List EntryOf) × AreMany IsEntryOfFeed count entries × (bytes.now ≡ flat_map entry_bytes entries)
        × LacksEntryRoom (vec_capacity spare.old.entries) (rooms_of spare.old.packets.items) entries) }
{
    let mut entries = spare.room_for(alloc, usize::from(count))?;
    let mut rest = bytes;
    for _ in 0..count {
        let (part, behind) = split_entry(rest).unwrap();
        let packet = spare.packet_of(alloc, part.packet)?;
        entries.push_reserved(Entry {
            serial: part.serial,
            position: part.position,
            packet,
        });
        rest = behind;
    }
    Ok(Listed::of(entries))
}

/// The streams that the bytes spell.
fn streams_of(
    alloc: Global,
    version: Version,
    count: u16,
    bytes: &[u8],
) -> Result<Listed<NewStream>, Memory>
    requires { Begins (AreMany (IsStreamOfFeed version) count) (flat_map (stream_bytes version)) bytes.now [] }
    ensures { IfOk result (λ streams. AreMany (IsStreamOfFeed version) count streams
        × (bytes.now ≡ flat_map (stream_bytes version) streams)) }
{
    let mut streams = Vec::with_capacity(alloc, usize::from(count))?;
    let mut rest = bytes;
    for _ in 0..count {
        let (stream, behind) = stream_of(alloc, version, rest)?;
        streams.push_reserved(stream);
        rest = behind;
    }
    Ok(Listed::of(streams))
}

/// The stream at the front, and what follows.
fn stream_of(alloc: Global, version: Version, bytes: &[u8]) -> Result<(NewStream, &[u8]), Memory>
    requires { (rest : List ℕ) × Begins (IsStreamOfFeed version) (stream_bytes version) bytes.now rest }
    ensures { IfOk result (λ (stream, rest). IsStreamOfFeed version stream
        × (bytes.now ≡ stream_bytes version stream ++ rest.now)) }
{
    let (serial, rest) = take_u32(bytes);
    let (count, rest) = take_u16(rest);
    let (headers, rest) = headers_of(alloc, count, rest)?;
    let (tail, rest) = split_tail(rest).unwrap();
    let media = packet_of(alloc, tail.media)?;
    let (fields, rest) = fields_of(alloc, version, rest)?;
    let stream = NewStream {
        serial,
        headers,
        media,
        fields,
        rate: tail.rate,
        base_granule: tail.base_granule,
        preroll: tail.preroll,
        shift: tail.shift,
    };
    Ok((stream, rest))
}

/// The message fields of a stream, and what follows.
fn fields_of(
    alloc: Global,
    version: Version,
    bytes: &[u8],
) -> Result<(Listed<Field>, &[u8]), Memory>
    requires { (rest : List ℕ) × Begins (AreFields version) (fields_bytes version) bytes.now rest }
    ensures { IfOk result (λ (fields, rest). AreFields version fields
        × (bytes.now ≡ fields_bytes version fields ++ rest.now)) }
{
    match version {
        Version::One => Ok((Listed::of(Vec::new(alloc)), bytes)),
        Version::Two => {
            let (count, rest) = take_u16(bytes);
            each_field_of(alloc, count, rest)
        }
    }
}

/// The first `count` message fields, and what follows.
fn each_field_of(alloc: Global, count: u16, bytes: &[u8]) -> Result<(Listed<Field>, &[u8]), Memory>
    requires { (rest : List ℕ) × Begins (AreMany IsFieldOfFeed count) (flat_map field_bytes) bytes.now rest }
    ensures { IfOk result (λ (fields, rest). AreMany IsFieldOfFeed count fields
        × (bytes.now ≡ flat_map field_bytes fields ++ rest.now)) }
{
    let mut fields = Vec::with_capacity(alloc, usize::from(count))?;
    let mut rest = bytes;
    for _ in 0..count {
        let (field, behind) = split_field(rest).unwrap();
        fields.push_reserved(field_of(alloc, field)?);
        rest = behind;
    }
    Ok((Listed::of(fields), rest))
}

/// A copy of a message field.
fn field_of(alloc: Global, field: (&[u8], &[u8])) -> Result<Field, Memory>
    ensures { IfOk result (λ copy. copy ≡ shown field.entry) }
{
    let (name, value) = field;
    Ok(Field::of(
        Vec::from_slice(alloc, name)?,
        Vec::from_slice(alloc, value)?,
    ))
}

/// The first `count` headers, and what follows.
fn headers_of(
    alloc: Global,
    count: u16,
    bytes: &[u8],
) -> Result<(Listed<Listed<u8>>, &[u8]), Memory>
    requires { (rest : List ℕ) × Begins (AreMany IsPacket count) (flat_map packet_bytes) bytes.now rest }
    ensures { IfOk result (λ (headers, rest). AreMany IsPacket count headers
        × (bytes.now ≡ flat_map packet_bytes headers ++ rest.now)) }
{
    let mut headers = Vec::with_capacity(alloc, usize::from(count))?;
    let mut rest = bytes;
    for _ in 0..count {
        let (header, behind) = split_packet(rest).unwrap();
        headers.push_reserved(packet_of(alloc, header)?);
        rest = behind;
    }
    Ok((Listed::of(headers), rest))
}

/// A copy of a packet's bytes.
fn packet_of(alloc: Global, bytes: &[u8]) -> Result<Listed<u8>, Memory>
    ensures { IfOk result (λ packet. packet ≡ bytes.now) }
{
    Ok(Listed::of(Vec::from_slice(alloc, bytes)?))
}
