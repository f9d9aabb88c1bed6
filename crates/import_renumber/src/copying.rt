//! Copies of commands, under other serials.
ghost use Rattle.std.specs.Prelude.{◌≡◌, map, nat_eq, IfOk};
ghost use Rattle.std.specs.List.{list_any};
ghost use Rattle.std.specs.Map.{values_of};
ghost use Rattle.import_changes.specs.Naming.{stream_named};
ghost use Rattle.import_renumber.specs.Renumbering.{entry_given, given_to};

use crate::Memory;
use import_changes::name_of;
use ogg_command::{Entry, Listed, NewStream};
use skeleton3::Field;
use std::alloc::Global;

/// A copy of bytes.
fn copied(alloc: Global, bytes: &Listed<u8>) -> Result<Listed<u8>, Memory>
    ensures { IfOk result (λ copy. copy ≡ bytes.now) }
{
    Ok(Listed::of(bytes.as_slice().to_vec(alloc)?))
}

/// A copy of packets.
fn all_copied(alloc: Global, packets: &[Listed<u8>]) -> Result<Vec<Listed<u8>>, Memory>
    ensures { IfOk result (λ copies. copies.items ≡ packets.now) }
{
    let mut copies = Vec::new(alloc);
    for packet in packets {
        copies.push(copied(alloc, packet)?)?;
    }
    Ok(copies)
}

/// A copy of message fields.
fn fields_copied(alloc: Global, fields: &[Field]) -> Result<Vec<Field>, Memory>
    ensures { IfOk result (λ copies. copies.items ≡ fields.now) }
{
    let mut copies = Vec::new(alloc);
    for field in fields {
        copies.push(Field::of(field.name().to_vec(alloc)?, field.value().to_vec(alloc)?))?;
    }
    Ok(copies)
}

/// A copy of a stream, under the serial that it has now.
fn stream_named(
    alloc: Global,
    names: &[(u32, u32)],
    stream: &NewStream,
) -> Result<NewStream, Memory>
    ensures { IfOk result (λ now. now ≡ stream_named names.now stream.now) }
{
    let headers = all_copied(alloc, stream.headers.as_slice())?;
    let media = copied(alloc, &stream.media)?;
    let fields = fields_copied(alloc, stream.fields.as_slice())?;
    Ok(NewStream {
        serial: name_of(names, stream.serial).unwrap_or(stream.serial),
        headers: Listed::of(headers),
        media,
        fields: Listed::of(fields),
        rate: stream.rate,
        base_granule: stream.base_granule,
        preroll: stream.preroll,
        shift: stream.shift,
    })
}

/// Copies of streams, under the serials that they have now.
pub fn streams_named(
    alloc: Global,
    names: &[(u32, u32)],
    streams: &[NewStream],
) -> Result<Vec<NewStream>, Memory>
    ensures { IfOk result (λ now. now.items ≡ map (stream_named names.now) streams.now) }
{
    let mut now = Vec::new(alloc);
    for stream in streams {
        now.push(stream_named(alloc, names, stream)?)?;
    }
    Ok(now)
}

/// Whether a stream has this serial now.
fn is_name(names: &[(u32, u32)], serial: u32) -> bool
    ensures { result ≡ list_any (nat_eq serial) (values_of names.now) }
{
    for name in names {
        if name.1 == serial {
            return true;
        }
    }
    false
}

/// The serial that a stream has now, or one that none has.
pub fn given_to(names: &[(u32, u32)], spare: u32, serial: u32) -> u32
    ensures { result ≡ given_to names.now spare serial }
{
    match name_of(names, serial) {
        Some(name) => name,
        None => {
            if is_name(names, serial) {
                spare
            } else {
                serial
            }
        }
    }
}

/// Copies of packets, under the serials that their streams have now.
pub fn entries_given(
    alloc: Global,
    names: &[(u32, u32)],
    spare: u32,
    entries: &[Entry],
) -> Result<Vec<Entry>, Memory>
    ensures { IfOk result (λ now. now.items ≡ map (entry_given names.now spare) entries.now) }
{
    let mut now = Vec::new(alloc);
    for entry in entries {
        now.push(Entry {
            serial: given_to(names, spare, entry.serial),
            position: entry.position,
            packet: copied(alloc, &entry.packet)?,
        })?;
    }
    Ok(now)
}
