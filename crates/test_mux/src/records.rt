//! Feeds as the tables write them, and their records, spelled here once more.
use std::alloc::Global;
use std::test::Fail;

/// A packet.
#[derive(Clone, Copy)]
pub enum Packet {
    /// These bytes.
    Text(&'static [u8]),
    /// This number of zeros.
    Zeros(u32),
}

/// A stream that a Skeleton describes.
#[derive(Clone, Copy)]
pub struct Described {
    pub serial: u32,
    pub headers: &'static [Packet],
    pub media: &'static [u8],
    pub rate: (i64, i64),
}

/// The name and the value of a message field.
pub type Field = (&'static [u8], &'static [u8]);

/// What stands in a feed.
#[derive(Clone, Copy)]
pub enum Record {
    /// The announcement of version 2.
    Version,
    /// A begin of streams with these serials, each with these headers.
    Begin(&'static [(u32, &'static [Packet])]),
    /// A begin with a Skeleton: its serial, the denominators of its presentation and base times, whose
    /// numerators are 0, and the streams that it describes.
    BeginWithSkeleton(u32, (i64, i64), &'static [Described]),
    /// The same in a feed of version 2, in which each stream has message fields.
    BeginWithFields(u32, (i64, i64), &'static [(Described, &'static [Field])]),
    /// A begin with a Skeleton of serial 1000 and of this number of streams, with the serials from 1 on and the
    /// header `abc`.
    BeginManyWithSkeleton(u16),
    /// A begin of the stream with this serial and the header `abc`.
    BeginOne(u32),
    /// A begin of this number of streams, with the serials from 1 on and the header `abc`.
    BeginMany(u16),
    /// A put of packets, each with its serial and its position.
    Put(&'static [(u32, u64, Packet)]),
    /// A put of this packet, repeated this number of times, for the serial 1 at position 0.
    PutMany(u16, Packet),
    /// The end of the stream with this serial.
    End(u32),
    /// A flush.
    Flush,
    /// These bytes, whatever they are.
    Bytes(&'static [u8]),
}

/// Appends the record.
pub fn append(record: Record, feed: &mut Vec<u8>) -> Result<(), Fail> {
    if let Record::Bytes(bytes) = record {
        feed.extend_from_slice(bytes)?;
        return Ok(());
    }
    let payload = payload_of(*feed.allocator(), record)?;
    append_payload(kind_of(record), payload.as_slice(), feed)
}

/// The number of the record's kind.
fn kind_of(record: Record) -> u8 {
    match record {
        Record::Version | Record::Bytes(_) => 0,
        Record::Begin(_) | Record::BeginOne(_) | Record::BeginMany(_) => 1,
        Record::BeginWithSkeleton(_, _, _) | Record::BeginWithFields(_, _, _) => 1,
        Record::BeginManyWithSkeleton(_) => 1,
        Record::Put(_) | Record::PutMany(_, _) => 2,
        Record::End(_) => 3,
        Record::Flush => 4,
    }
}

/// What stands in the record after its kind and its length.
fn payload_of(alloc: Global, record: Record) -> Result<Vec<u8>, Fail> {
    match record {
        Record::Version => Ok(Vec::from_slice(alloc, &[2])?),
        Record::Begin(streams) => begin(alloc, streams),
        Record::BeginWithSkeleton(serial, times, streams) => {
            begin_described(alloc, serial, times, streams)
        }
        Record::BeginWithFields(serial, times, streams) => {
            begin_with_fields(alloc, serial, times, streams)
        }
        Record::BeginManyWithSkeleton(count) => begin_many_described(alloc, count),
        Record::BeginOne(serial) => begin_one(alloc, serial),
        Record::BeginMany(count) => begin_many(alloc, count),
        Record::Put(entries) => put(alloc, entries),
        Record::PutMany(count, packet) => put_many(alloc, count, packet),
        Record::End(serial) => Ok(Vec::from_slice(alloc, &serial.to_le_bytes())?),
        Record::Flush | Record::Bytes(_) => Ok(Vec::new(alloc)),
    }
}

fn begin(alloc: Global, streams: &[(u32, &[Packet])]) -> Result<Vec<u8>, Fail> {
    let mut payload = begin_of(alloc, u16::try_from(streams.len())?)?;
    for (serial, headers) in streams {
        append_stream(*serial, headers, &mut payload)?;
    }
    Ok(payload)
}

fn begin_described(
    alloc: Global,
    serial: u32,
    times: (i64, i64),
    streams: &[Described],
) -> Result<Vec<u8>, Fail> {
    let mut payload = skeleton_of(alloc, serial, times, u16::try_from(streams.len())?)?;
    for stream in streams {
        append_described(stream, &mut payload)?;
    }
    Ok(payload)
}

fn begin_with_fields(
    alloc: Global,
    serial: u32,
    times: (i64, i64),
    streams: &[(Described, &[Field])],
) -> Result<Vec<u8>, Fail> {
    let mut payload = skeleton_of(alloc, serial, times, u16::try_from(streams.len())?)?;
    for (stream, fields) in streams {
        append_described(stream, &mut payload)?;
        append_fields(fields, &mut payload)?;
    }
    Ok(payload)
}

fn begin_many_described(alloc: Global, count: u16) -> Result<Vec<u8>, Fail> {
    let mut payload = skeleton_of(alloc, 1000, (1, 1), count)?;
    for serial in 1..=u32::from(count) {
        let stream = Described {
            serial,
            headers: &[Packet::Text(b"abc")],
            media: b"audio/vorbis",
            rate: (1, 1),
        };
        append_described(&stream, &mut payload)?;
    }
    Ok(payload)
}

fn begin_one(alloc: Global, serial: u32) -> Result<Vec<u8>, Fail> {
    let mut payload = begin_of(alloc, 1)?;
    append_stream(serial, &[Packet::Text(b"abc")], &mut payload)?;
    Ok(payload)
}

fn begin_many(alloc: Global, count: u16) -> Result<Vec<u8>, Fail> {
    let mut payload = begin_of(alloc, count)?;
    for serial in 1..=u32::from(count) {
        append_stream(serial, &[Packet::Text(b"abc")], &mut payload)?;
    }
    Ok(payload)
}

fn put(alloc: Global, entries: &[(u32, u64, Packet)]) -> Result<Vec<u8>, Fail> {
    let mut payload = Vec::from_slice(alloc, &u16::try_from(entries.len())?.to_le_bytes())?;
    for (serial, position, packet) in entries {
        append_entry(*serial, *position, *packet, &mut payload)?;
    }
    Ok(payload)
}

fn put_many(alloc: Global, count: u16, packet: Packet) -> Result<Vec<u8>, Fail> {
    let mut payload = Vec::from_slice(alloc, &count.to_le_bytes())?;
    for _ in 0..count {
        append_entry(1, 0, packet, &mut payload)?;
    }
    Ok(payload)
}

/// The front of a begin's payload: no Skeleton, and the number of streams.
fn begin_of(alloc: Global, streams: u16) -> Result<Vec<u8>, Fail> {
    let mut payload = Vec::from_slice(alloc, &[0])?;
    payload.extend_from_slice(&streams.to_le_bytes())?;
    Ok(payload)
}

/// The front of the payload of a begin with a Skeleton, up to the number of streams.
fn skeleton_of(
    alloc: Global,
    serial: u32,
    times: (i64, i64),
    streams: u16,
) -> Result<Vec<u8>, Fail> {
    let mut payload = Vec::from_slice(alloc, &[1])?;
    payload.extend_from_slice(&serial.to_le_bytes())?;
    for denominator in [times.0, times.1] {
        payload.extend_from_slice(&0i64.to_le_bytes())?;
        payload.extend_from_slice(&denominator.to_le_bytes())?;
    }
    payload.extend_from_slice(&[0; 20])?;
    payload.extend_from_slice(&streams.to_le_bytes())?;
    Ok(payload)
}

/// Appends a stream that a Skeleton describes.
fn append_described(stream: &Described, payload: &mut Vec<u8>) -> Result<(), Fail> {
    append_headers(stream.serial, stream.headers, payload)?;
    payload.extend_from_slice(&u16::try_from(stream.media.len())?.to_le_bytes())?;
    payload.extend_from_slice(stream.media)?;
    payload.extend_from_slice(&stream.rate.0.to_le_bytes())?;
    payload.extend_from_slice(&stream.rate.1.to_le_bytes())?;
    // The base granule, the preroll and the shift.
    payload.extend_from_slice(&[0; 13])?;
    Ok(())
}

/// Appends a stream's message fields, after their number.
fn append_fields(fields: &[Field], payload: &mut Vec<u8>) -> Result<(), Fail> {
    payload.extend_from_slice(&u16::try_from(fields.len())?.to_le_bytes())?;
    for (name, value) in fields {
        for text in [name, value] {
            payload.extend_from_slice(&u16::try_from(text.len())?.to_le_bytes())?;
            payload.extend_from_slice(text)?;
        }
    }
    Ok(())
}

/// Appends a stream without a media type, with zeros for the rest.
fn append_stream(serial: u32, headers: &[Packet], payload: &mut Vec<u8>) -> Result<(), Fail> {
    append_headers(serial, headers, payload)?;
    // The media type's length, three numbers of eight bytes, one of four and one of one.
    payload.extend_from_slice(&[0; 31])?;
    Ok(())
}

/// Appends a stream's serial and its headers.
fn append_headers(serial: u32, headers: &[Packet], payload: &mut Vec<u8>) -> Result<(), Fail> {
    payload.extend_from_slice(&serial.to_le_bytes())?;
    payload.extend_from_slice(&u16::try_from(headers.len())?.to_le_bytes())?;
    for header in headers {
        append_packet(*header, payload)?;
    }
    Ok(())
}

/// Appends an entry of a put.
fn append_entry(
    serial: u32,
    position: u64,
    packet: Packet,
    payload: &mut Vec<u8>,
) -> Result<(), Fail> {
    payload.extend_from_slice(&serial.to_le_bytes())?;
    payload.extend_from_slice(&position.to_le_bytes())?;
    append_packet(packet, payload)
}

/// Appends a packet after its length.
fn append_packet(packet: Packet, payload: &mut Vec<u8>) -> Result<(), Fail> {
    match packet {
        Packet::Text(bytes) => {
            payload.extend_from_slice(&u32::try_from(bytes.len())?.to_le_bytes())?;
            payload.extend_from_slice(bytes)?;
            Ok(())
        }
        Packet::Zeros(count) => {
            payload.extend_from_slice(&count.to_le_bytes())?;
            payload.resize(payload.len() + count as usize, 0)?;
            Ok(())
        }
    }
}

/// Appends a record of this kind and payload.
fn append_payload(kind: u8, payload: &[u8], feed: &mut Vec<u8>) -> Result<(), Fail> {
    feed.push(kind)?;
    feed.extend_from_slice(&u32::try_from(payload.len())?.to_le_bytes())?;
    feed.extend_from_slice(payload)?;
    Ok(())
}
