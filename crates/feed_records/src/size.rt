//! How long payloads are.
ghost use Rattle.std.specs.Prelude.{◌≡◌, ◌+◌, ◌≤◌, ◌<◌, ◌^◌, length};
ghost use Rattle.std.specs.List.{flat_map};
ghost use Rattle.feed_records.specs.Record.{FitsRecord, payload_of, packet_bytes, field_bytes, fields_bytes, skeleton_bytes, stream_bytes, entry_bytes};

use crate::version::Version;
use crate::widths::{COUNT, ENTRY, FIELD, LENGTH, SERIAL, STREAM};
use ogg_command::{Command, Entry, Listed, NewStream, SkeletonHead};
use skeleton3::Field;

/// How long the command's payload is.
pub fn payload_size(version: Version, command: &Command) -> usize
    requires { FitsRecord version command.now }
    ensures { result ≡ length (payload_of version command.now) }
{
    match command {
        Command::Begin(begin) => {
            skeleton_size(&begin.skeleton) + COUNT + streams_size(version, begin.streams.as_slice())
        }
        Command::Put(put) => COUNT + entries_size(put.entries.as_slice()),
        Command::End(_) => SERIAL,
    }
}

fn skeleton_size(skeleton: &Option<SkeletonHead>) -> usize
    requires { length (skeleton_bytes skeleton.now) < 2 ^ 32 }
    ensures { result ≡ length (skeleton_bytes skeleton.now) }
{
    match skeleton {
        None => 1,
        Some(head) => 37 + head.utc.as_slice().len(),
    }
}

fn streams_size(version: Version, streams: &[NewStream]) -> usize
    requires { length (flat_map (stream_bytes version) streams.now) < 2 ^ 32 }
    ensures { result ≡ length (flat_map (stream_bytes version) streams.now) }
{
    let mut size = 0;
    for stream in streams {
        size += stream_size(version, stream);
    }
    size
}

fn stream_size(version: Version, stream: &NewStream) -> usize
    requires { length (stream_bytes version stream.now) < 2 ^ 32 }
    ensures { result ≡ length (stream_bytes version stream.now) }
{
    STREAM
        + headers_size(stream.headers.as_slice())
        + stream.media.len()
        + fields_size(version, stream.fields.as_slice())
}

fn fields_size(version: Version, fields: &[Field]) -> usize
    requires { length (fields_bytes version fields.now) < 2 ^ 32 }
    ensures { result ≡ length (fields_bytes version fields.now) }
{
    match version {
        Version::One => 0,
        Version::Two => COUNT + each_field_size(fields),
    }
}

fn each_field_size(fields: &[Field]) -> usize
    requires { length (flat_map field_bytes fields.now) < 2 ^ 32 }
    ensures { result ≡ length (flat_map field_bytes fields.now) }
{
    let mut size = 0;
    for field in fields {
        size += field_size(field);
    }
    size
}

fn field_size(field: &Field) -> usize
    requires { length (field_bytes field.now) < 2 ^ 32 }
    ensures { result ≡ length (field_bytes field.now) }
{
    FIELD + field.name().len() + field.value().len()
}

fn headers_size(headers: &[Listed<u8>]) -> usize
    requires { length (flat_map packet_bytes headers.now) < 2 ^ 32 }
    ensures { result ≡ length (flat_map packet_bytes headers.now) }
{
    let mut size = 0;
    for header in headers {
        size += LENGTH + header.len();
    }
    size
}

fn entries_size(entries: &[Entry]) -> usize
    requires { length (flat_map entry_bytes entries.now) < 2 ^ 32 }
    ensures { result ≡ length (flat_map entry_bytes entries.now) }
{
    let mut size = 0;
    for entry in entries {
        size += ENTRY + entry.packet.len();
    }
    size
}
