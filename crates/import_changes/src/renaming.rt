//! Streams and packets under the serials that their streams have now.
ghost use Rattle.std.specs.Prelude.{◌≡◌, ◌+◌, ◌++◌, ◌∷◌, ◌≤◌, ◌<◌, length, map, OnOk, OnErr};
ghost use Rattle.ogg_command.specs.declared.command.NewStream.{NewStream as NewStreamOf};
ghost use Rattle.import_changes.specs.Naming.{entries_named, named, serials_of, stream_named};

use crate::naming::name_of;
use link_chain::Serials;
use ogg_command::{Entry, Listed, Memory, NewStream};
use std::alloc::Global;
use std::mem;

/// Gives the stream the serial that it has now.
pub fn take_name(names: &[(u32, u32)], stream: &mut NewStream)
    ensures { stream.new ≡ stream_named names.now stream.old }
{
    stream.serial = name_of(names, stream.serial).unwrap_or(stream.serial);
}

/// Gives each of the streams the serial that it has now.
fn take_names(names: &[(u32, u32)], streams: &mut [NewStream])
    ensures { streams.new ≡ map (stream_named names.now) streams.old }
{
    for stream in streams.iter_mut() {
        take_name(names, stream);
    }
}

/// The streams under the serials that they have now, in the same memory.
pub fn streams_named(names: &[(u32, u32)], mut streams: Vec<NewStream>) -> Vec<NewStream>
    ensures { result.items ≡ map (stream_named names.now) streams.items }
{
    take_names(names, streams.as_mut_slice());
    streams
}

/// The packets under the serials that their streams have now, without the packets that are of none of the streams, in
/// the same memory.
pub fn entries_named(alloc: Global, names: &[(u32, u32)], mut entries: Vec<Entry>) -> Vec<Entry>
    ensures { result.items ≡ entries_named names.now entries.items }
{
    let mut kept = 0;
    for place in 0..entries.len() {
        let entry = mem::replace(&mut entries[place], nothing(alloc));
        if let Some(serial) = name_of(names, entry.serial) {
            entries[kept] = Entry {
                serial,
                position: entry.position,
                packet: entry.packet,
            };
            kept += 1;
        }
    }
    entries.truncate(kept);
    entries
}

/// What stands for an entry that was moved. It takes no memory.
fn nothing(alloc: Global) -> Entry {
    Entry {
        serial: 0,
        position: 0,
        packet: Listed::of(Vec::new(alloc)),
    }
}

/// Adds the serials of these streams to those that are taken, for which there is room.
fn give_reserved(given: &mut Serials, streams: &[NewStream])
    requires { length streams.now ≤ given.old.room }
    ensures { given.new.listed ≡ given.old.listed ++ serials_of streams.now }
{
    for stream in streams {
        given.push_reserved(stream.serial);
    }
}

/// Adds the serials of these streams to those that are taken. After `Memory` none is added.
pub fn give_all(given: &mut Serials, streams: &[NewStream]) -> Result<(), Memory>
    ensures ok { OnOk result (given.new.listed ≡ given.old.listed ++ serials_of streams.now) }
    ensures err { OnErr result (given.new.listed ≡ given.old.listed) }
    ensures full { OnErr result (given.old.room < length streams.now) }
{
    match given.reserve(streams.len()) {
        Ok(()) => {}
        Err(refused) => return Err(refused),
    }
    give_reserved(given, streams);
    Ok(())
}

/// Adds a Skeleton's serial, and then those of these streams, to those that are taken. After `Memory` none is added.
pub fn give_with(given: &mut Serials, serial: u32, streams: &[NewStream]) -> Result<(), Memory>
    ensures ok { OnOk result (given.new.listed ≡ given.old.listed ++ serial ∷ serials_of streams.now) }
    ensures err { OnErr result (given.new.listed ≡ given.old.listed) }
    ensures full { OnErr result (given.old.room < length streams.now + 1) }
{
    // A `Begin` has few streams, so the sum doesn't overflow.
    match given.reserve(streams.len().saturating_add(1)) {
        Ok(()) => {}
        Err(refused) => return Err(refused),
    }
    given.push_reserved(serial);
    give_reserved(given, streams);
    Ok(())
}

/// Adds these serials to those that are taken. After `Memory` none is added.
pub fn take_all(given: &mut Serials, serials: &[u32]) -> Result<(), Memory>
    ensures ok { OnOk result (given.new.listed ≡ given.old.listed ++ serials.now) }
    ensures err { OnErr result (given.new.listed ≡ given.old.listed) }
    ensures full { OnErr result (given.old.room < length serials.now) }
{
    match given.reserve(serials.len()) {
        Ok(()) => {}
        Err(refused) => return Err(refused),
    }
    for serial in serials {
        given.push_reserved(*serial);
    }
    Ok(())
}
