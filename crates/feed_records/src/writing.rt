//! Commands written as records.
ghost use Rattle.std.specs.Prelude.{◌≡◌, ◌+◌, ◌≤◌, ◌<◌, ◌^◌, ◌++◌, ◌∷◌, [], length, OnOk, OnErr, vec_len, vec_capacity};
ghost use Rattle.std.specs.List.{flat_map, AllByRecursion};
ghost use Rattle.ogg_page.specs.Numbers.{u16_bytes, u32_bytes, u64_bytes, i64_bytes, fraction_bytes};
ghost use Rattle.feed_records.specs.Record.{FitsRecord, FitsFields, FitsStream, FitsHeader, FitsField, FitsMessage, FitsEntry, record_of, announcement, kind_of, payload_of, packet_bytes, media_bytes, field_bytes, fields_bytes, skeleton_bytes, stream_bytes, entry_bytes};
ghost use Rattle.feed_records.specs.declared.version.Version.{Version as VersionOf};
ghost use Rattle.feed_records.specs.Tail.{tail_bytes, tail_of_stream};
ghost use Rattle.feed_records.specs.Writing.{Grows, stream_size};

use crate::item::Record;
use crate::size::payload_size;
use crate::version::{ANNOUNCEMENT, Version};
use crate::widths::HEAD;
use ogg_command::{Command, Entry, Listed, Memory, NewStream, SkeletonHead};
use skeleton3::Field;

/// Appends the command's record, of version 1, in which streams have no message fields. After `Memory` the vector is
/// unchanged.
pub fn write_command(command: &Command, out: &mut Vec<u8>) -> Result<(), Memory>
    requires { FitsRecord Version.One command.now }
    ensures ok { OnOk result (out.new.items ≡ out.old.items ++ record_of Version.One (Record.Command command.now)) }
    ensures err { OnErr result (out.new.items ≡ out.old.items) }
    ensures full { OnErr result (vec_capacity out.old
        < vec_len out.old + length (record_of Version.One (Record.Command command.now))) }
{
    write_record(Version::One, command, out)
}

/// Appends the command's record, of version 2, which may stand in a feed whose first record is that of
/// [`write_version`]. After `Memory` the vector is unchanged.
pub fn write_command_2(command: &Command, out: &mut Vec<u8>) -> Result<(), Memory>
    requires { FitsRecord Version.Two command.now }
    ensures ok { OnOk result (out.new.items ≡ out.old.items ++ record_of Version.Two (Record.Command command.now)) }
    ensures err { OnErr result (out.new.items ≡ out.old.items) }
    ensures full { OnErr result (vec_capacity out.old
        < vec_len out.old + length (record_of Version.Two (Record.Command command.now))) }
{
    write_record(Version::Two, command, out)
}

/// Appends a flush record, which is the same in both versions. After `Memory` the vector is unchanged.
#[tactic(auto, unfolding(crate::specs::Record::item_bytes, ogg_page::specs::Numbers::u32_bytes))]
pub fn write_flush(out: &mut Vec<u8>) -> Result<(), Memory>
    ensures ok { OnOk result ((version : VersionOf) → out.new.items ≡ out.old.items ++ record_of version Record.Flush) }
    ensures err { OnErr result (out.new.items ≡ out.old.items) }
    ensures full { OnErr result (vec_capacity out.old < vec_len out.old + 5) }
{
    out.extend_from_slice(&[4, 0, 0, 0, 0])
}

/// Appends the announcement that the feed is of version 2, which stands in front of all records. After `Memory` the
/// vector is unchanged.
#[tactic(auto, unfolding(crate::specs::Record::item_bytes, ogg_page::specs::Numbers::u32_bytes))]
pub fn write_version(out: &mut Vec<u8>) -> Result<(), Memory>
    ensures ok { OnOk result (out.new.items ≡ out.old.items ++ announcement) }
    ensures err { OnErr result (out.new.items ≡ out.old.items) }
    ensures full { OnErr result (vec_capacity out.old < vec_len out.old + 6) }
{
    out.extend_from_slice(&[ANNOUNCEMENT, 1, 0, 0, 0, 2])
}

fn write_record(version: Version, command: &Command, out: &mut Vec<u8>) -> Result<(), Memory>
    requires { FitsRecord version command.now }
    ensures ok { OnOk result (out.new.items ≡ out.old.items ++ record_of version (Record.Command command.now)) }
    ensures err { OnErr result (out.new.items ≡ out.old.items) }
    ensures full { OnErr result (vec_capacity out.old
        < vec_len out.old + length (record_of version (Record.Command command.now))) }
{
    let size = payload_size(version, command);
    // The one step that can fail comes first.
    out.reserve(HEAD + size)?;
    put_bytes(&[kind_number(command)], out);
    put_u32(size as u32, out);
    put_payload(version, command, out);
    Ok(())
}

/// The number of the command's kind.
fn kind_number(command: &Command) -> u8
    ensures { result ≡ kind_of command.now }
{
    match command {
        Command::Begin(_) => 1,
        Command::Put(_) => 2,
        Command::End(_) => 3,
    }
}

fn put_payload(version: Version, command: &Command, out: &mut Vec<u8>)
    requires fields { FitsFields version command.now }
    requires room { vec_len out.old + length (payload_of version command.now) ≤ vec_capacity out.old }
    ensures items { out.new.items ≡ out.old.items ++ payload_of version command.now }
{
    match command {
        Command::Begin(begin) => {
            put_skeleton(&begin.skeleton, out);
            put_u16(begin.streams.len() as u16, out);
            put_streams(version, begin.streams.as_slice(), out);
        }
        Command::Put(put) => {
            put_u16(put.entries.len() as u16, out);
            put_entries(put.entries.as_slice(), out);
        }
        Command::End(serial) => put_u32(*serial, out),
    }
}

fn put_skeleton(skeleton: &Option<SkeletonHead>, out: &mut Vec<u8>)
    requires { vec_len out.old + length (skeleton_bytes skeleton.now) ≤ vec_capacity out.old }
    ensures { Grows out.old out.new (skeleton_bytes skeleton.now) (length (skeleton_bytes skeleton.now)) }
{
    match skeleton {
        None => put_bytes(&[0], out),
        Some(head) => {
            put_bytes(&[1], out);
            put_u32(head.serial, out);
            put_fraction(head.presentation, out);
            put_fraction(head.base, out);
            put_bytes(&head.utc, out);
        }
    }
}

fn put_streams(version: Version, streams: &[NewStream], out: &mut Vec<u8>)
    requires fields { AllByRecursion (FitsStream version) streams.now }
    requires room { vec_len out.old + length (flat_map (stream_bytes version) streams.now) ≤ vec_capacity out.old }
    ensures { Grows out.old out.new (flat_map (stream_bytes version) streams.now) (length (flat_map (stream_bytes version) streams.now)) }
{
    for stream in streams {
        put_stream(version, stream, out);
    }
}

fn put_stream(version: Version, stream: &NewStream, out: &mut Vec<u8>)
    requires fields { FitsStream version stream.now }
    requires room { vec_len out.old + stream_size version stream.now ≤ vec_capacity out.old }
    ensures { Grows out.old out.new (stream_bytes version stream.now) (stream_size version stream.now) }
{
    put_u32(stream.serial, out);
    put_u16(stream.headers.len() as u16, out);
    put_headers(stream.headers.as_slice(), out);
    put_tail(stream, out);
    put_fields(version, stream.fields.as_slice(), out);
}

fn put_fields(version: Version, fields: &[Field], out: &mut Vec<u8>)
    requires fields { FitsMessage version fields.now }
    requires room { vec_len out.old + length (fields_bytes version fields.now) ≤ vec_capacity out.old }
    ensures { Grows out.old out.new (fields_bytes version fields.now) (length (fields_bytes version fields.now)) }
{
    match version {
        Version::One => {}
        Version::Two => {
            put_u16(fields.len() as u16, out);
            put_each_field(fields, out);
        }
    }
}

fn put_each_field(fields: &[Field], out: &mut Vec<u8>)
    requires fields { AllByRecursion FitsField fields.now }
    requires room { vec_len out.old + length (flat_map field_bytes fields.now) ≤ vec_capacity out.old }
    ensures { Grows out.old out.new (flat_map field_bytes fields.now) (length (flat_map field_bytes fields.now)) }
{
    for field in fields {
        put_field(field, out);
    }
}

fn put_field(field: &Field, out: &mut Vec<u8>)
    requires fields { FitsField field.now }
    requires room { vec_len out.old + (4 + length field.now.0 + length field.now.1) ≤ vec_capacity out.old }
    ensures { Grows out.old out.new (field_bytes field.now) (4 + length field.now.0 + length field.now.1) }
{
    put_media(field.name(), out);
    put_media(field.value(), out);
}

fn put_media(media: &[u8], out: &mut Vec<u8>)
    requires fields { length media.now < 2 ^ 16 }
    requires room { vec_len out.old + (2 + length media.now) ≤ vec_capacity out.old }
    ensures { Grows out.old out.new (media_bytes media.now) (2 + length media.now) }
{
    put_u16(media.len() as u16, out);
    put_bytes(media, out);
}

fn put_headers(headers: &[Listed<u8>], out: &mut Vec<u8>)
    requires fields { AllByRecursion FitsHeader headers.now }
    requires room { vec_len out.old + length (flat_map packet_bytes headers.now) ≤ vec_capacity out.old }
    ensures { Grows out.old out.new (flat_map packet_bytes headers.now) (length (flat_map packet_bytes headers.now)) }
{
    for header in headers {
        put_packet(header.as_slice(), out);
    }
}

/// What follows a stream's headers, but for its message fields.
#[tactic(auto, unfolding(crate::specs::Tail::tail_bytes))]
fn put_tail(stream: &NewStream, out: &mut Vec<u8>)
    requires fields { length stream.now.media < 2 ^ 16 }
    requires room { vec_len out.old + (31 + length stream.now.media) ≤ vec_capacity out.old }
    ensures { Grows out.old out.new (tail_bytes (tail_of_stream stream.now)) (31 + length stream.now.media) }
{
    put_u16(stream.media.len() as u16, out);
    put_bytes(stream.media.as_slice(), out);
    put_fraction(stream.rate, out);
    put_i64(stream.base_granule, out);
    put_u32(stream.preroll, out);
    put_bytes(&[stream.shift], out);
}

fn put_entries(entries: &[Entry], out: &mut Vec<u8>)
    requires fields { AllByRecursion FitsEntry entries.now }
    requires room { vec_len out.old + length (flat_map entry_bytes entries.now) ≤ vec_capacity out.old }
    ensures { Grows out.old out.new (flat_map entry_bytes entries.now) (length (flat_map entry_bytes entries.now)) }
{
    for entry in entries {
        put_entry(entry, out);
    }
}

#[tactic(auto, unfolding(crate::specs::Record::entry_bytes))]
fn put_entry(entry: &Entry, out: &mut Vec<u8>)
    requires fields { FitsEntry entry.now }
    requires room { vec_len out.old + (16 + length entry.now.packet) ≤ vec_capacity out.old }
    ensures { Grows out.old out.new (entry_bytes entry.now) (16 + length entry.now.packet) }
{
    put_u32(entry.serial, out);
    put_u64(entry.position, out);
    put_packet(entry.packet.as_slice(), out);
}

fn put_packet(packet: &[u8], out: &mut Vec<u8>)
    requires fields { length packet.now < 2 ^ 32 }
    requires room { vec_len out.old + (4 + length packet.now) ≤ vec_capacity out.old }
    ensures { Grows out.old out.new (packet_bytes packet.now) (4 + length packet.now) }
{
    put_u32(packet.len() as u32, out);
    put_bytes(packet, out);
}

fn put_fraction(fraction: (i64, i64), out: &mut Vec<u8>)
    requires { vec_len out.old + 16 ≤ vec_capacity out.old }
    ensures { Grows out.old out.new (fraction_bytes fraction) 16 }
{
    put_i64(fraction.0, out);
    put_i64(fraction.1, out);
}

#[tactic(auto, unfolding(ogg_page::specs::Numbers::u16_bytes))]
fn put_u16(number: u16, out: &mut Vec<u8>)
    requires { vec_len out.old + 2 ≤ vec_capacity out.old }
    ensures { Grows out.old out.new (u16_bytes number) 2 }
{
    put_bytes(&number.to_le_bytes(), out);
}

#[tactic(auto, unfolding(ogg_page::specs::Numbers::u32_bytes))]
fn put_u32(number: u32, out: &mut Vec<u8>)
    requires { vec_len out.old + 4 ≤ vec_capacity out.old }
    ensures { Grows out.old out.new (u32_bytes number) 4 }
{
    put_bytes(&number.to_le_bytes(), out);
}

#[tactic(auto, unfolding(ogg_page::specs::Numbers::u64_bytes))]
fn put_u64(number: u64, out: &mut Vec<u8>)
    requires { vec_len out.old + 8 ≤ vec_capacity out.old }
    ensures { Grows out.old out.new (u64_bytes number) 8 }
{
    put_bytes(&number.to_le_bytes(), out);
}

#[tactic(auto, unfolding(ogg_page::specs::Numbers::u64_bytes, ogg_page::specs::Numbers::i64_bytes))]
fn put_i64(number: i64, out: &mut Vec<u8>)
    requires { vec_len out.old + 8 ≤ vec_capacity out.old }
    ensures { Grows out.old out.new (i64_bytes number) 8 }
{
    put_u64(number.cast_unsigned(), out);
}

/// Appends these bytes; there is room for them.
fn put_bytes(bytes: &[u8], out: &mut Vec<u8>)
    requires { vec_len out.old + length bytes.now ≤ vec_capacity out.old }
    ensures { Grows out.old out.new bytes.now (length bytes.now) }
{
    out.extend_from_slice(bytes).unwrap();
}
