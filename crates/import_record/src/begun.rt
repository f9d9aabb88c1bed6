//! The input's last link: what it takes to begin it again.
ghost use Rattle.std.specs.Prelude.{◌≡◌, [], map, IfOk, OnErr, OnOk, true};
ghost use Rattle.std.specs.List.{filter, list_any};
ghost use Rattle.import_changes.specs.Changed.{begins};
ghost use Rattle.import_record.specs.Begun.{bare, begun_stream, comes_again, has_packet, open_after, open_with, serial_of, stream_of, streams_after, streams_with, with_end, with_packets};

use crate::Memory;
use ogg_command::{Command, Entry, Listed, NewStream};
use std::alloc::Global;

/// A stream of the input's last link.
#[derive(Drop)]
pub(crate) struct BegunStream {
    // with its headers
    pub(crate) stream: NewStream,
    // whether a packet came that is none of the headers
    pub(crate) has_packets: bool,
    pub(crate) ended: bool,
}

/// What is kept of the input's last link, until the next begins.
#[derive(Drop)]
pub(crate) struct Begun {
    // the streams with which it began
    pub(crate) streams: Vec<BegunStream>,
    // the serials under which streams were begun in the file that weren't ended
    pub(crate) serials: Vec<u32>,
}

impl Begun {
    /// No link was begun.
    pub(crate) fn new(alloc: Global) -> Begun
        ensures streams { result.streams.items ≡ [] }
        ensures serials { result.serials.items ≡ [] }
    {
        Begun {
            streams: Vec::new(alloc),
            serials: Vec::new(alloc),
        }
    }
}

/// A copy of packets.
fn copied(alloc: Global, packets: &[Listed<u8>]) -> Result<Vec<Listed<u8>>, Memory>
    ensures { IfOk result (λ copy. copy.items ≡ packets.now) }
{
    let mut copy = Vec::new(alloc);
    for packet in packets {
        copy.push(Listed::of(packet.as_slice().to_vec(alloc)?))?;
    }
    Ok(copy)
}

/// A stream with a copy of the headers. Nothing else is said of it.
fn bare(alloc: Global, stream: &NewStream) -> Result<NewStream, Memory>
    ensures { IfOk result (λ copy. copy ≡ bare stream.now) }
{
    let headers = copied(alloc, stream.headers.as_slice())?;
    Ok(NewStream {
        serial: stream.serial,
        headers: Listed::of(headers),
        media: Listed::of(Vec::new(alloc)),
        fields: Listed::of(Vec::new(alloc)),
        rate: (0, 0),
        base_granule: 0,
        preroll: 0,
        shift: 0,
    })
}

/// The streams of a link that begins, with a copy of their headers.
fn all_begun(alloc: Global, streams: &[NewStream]) -> Result<Vec<BegunStream>, Memory>
    ensures { IfOk result (λ begun. begun.items ≡ map begun_stream streams.now) }
{
    let mut begun = Vec::new(alloc);
    for stream in streams {
        begun.push(BegunStream {
            stream: bare(alloc, stream)?,
            has_packets: false,
            ended: false,
        })?;
    }
    Ok(begun)
}

/// Whether the stream is one of those that begin again with their link.
fn comes_again(begun: &BegunStream) -> bool
    ensures { result ≡ comes_again begun.now }
{
    !(begun.ended && begun.has_packets)
}

/// The streams that begin again, with a copy of their headers.
pub(crate) fn all_again(alloc: Global, streams: &[BegunStream]) -> Result<Vec<NewStream>, Memory>
    ensures { IfOk result (λ again. again.items ≡ map bare (map stream_of (filter comes_again streams.now))) }
{
    let mut again = Vec::new(alloc);
    for begun in streams {
        if comes_again(begun) {
            again.push(bare(alloc, &begun.stream)?)?;
        }
    }
    Ok(again)
}

/// The serials of the streams.
fn serials_of(alloc: Global, streams: &[NewStream]) -> Result<Vec<u32>, Memory>
    ensures { IfOk result (λ serials. serials.items ≡ map serial_of streams.now) }
{
    let mut serials = Vec::new(alloc);
    for stream in streams {
        serials.push(stream.serial)?;
    }
    Ok(serials)
}

/// Whether one of the packets is of the stream with this serial.
fn has_packet(entries: &[Entry], serial: u32) -> bool
    ensures { result ≡ has_packet entries.now serial }
{
    entries.iter().any(|entry| entry.serial == serial)
}

impl BegunStream {
    /// Packets came.
    fn take_packets(&mut self, entries: &[Entry])
        ensures { self.new ≡ with_packets entries.now self.old }
    {
        if !self.has_packets {
            self.has_packets = has_packet(entries, self.stream.serial);
        }
    }

    /// The stream with this serial has ended.
    fn take_end(&mut self, serial: u32)
        ensures { self.new ≡ with_end serial self.old }
    {
        if self.stream.serial == serial {
            self.ended = true;
        }
    }
}

/// Packets came.
fn take_packets(streams: &mut [BegunStream], entries: &[Entry])
    ensures { streams.new ≡ map (with_packets entries.now) streams.old }
{
    for stream in streams.iter_mut() {
        stream.take_packets(entries);
    }
}

/// The stream with this serial has ended.
fn take_end(streams: &mut [BegunStream], serial: u32)
    ensures { streams.new ≡ map (with_end serial) streams.old }
{
    for stream in streams.iter_mut() {
        stream.take_end(serial);
    }
}

/// The input gave this command.
fn keep_streams(
    alloc: Global,
    streams: &mut Vec<BegunStream>,
    command: &Command,
) -> Result<(), Memory>
    ensures streams { OnOk result (streams.new.items ≡ streams_with streams.old.items command.now) }
    ensures full { OnErr result (begins command.now ≡ true) }
{
    match command {
        Command::Begin(begin) => *streams = all_begun(alloc, begin.streams.as_slice())?,
        Command::Put(put) => take_packets(streams.as_mut_slice(), put.entries.as_slice()),
        Command::End(serial) => take_end(streams.as_mut_slice(), *serial),
    }
    Ok(())
}

/// This command is run.
fn keep_open(alloc: Global, serials: &mut Vec<u32>, command: &Command) -> Result<(), Memory>
    ensures serials { OnOk result (serials.new.items ≡ open_with serials.old.items command.now) }
    ensures full { OnErr result (begins command.now ≡ true) }
{
    match command {
        Command::Begin(begin) => *serials = serials_of(alloc, begin.streams.as_slice())?,
        Command::Put(_) => {}
        Command::End(serial) => serials.retain(|other| *other != *serial),
    }
    Ok(())
}

/// The input gave these commands. After `Memory` only some of them count.
pub(crate) fn keep_all_streams(
    alloc: Global,
    streams: &mut Vec<BegunStream>,
    commands: &[Command],
) -> Result<(), Memory>
    ensures streams { OnOk result (streams.new.items ≡ streams_after streams.old.items commands.now) }
    ensures full { OnErr result (list_any begins commands.now ≡ true) }
{
    for command in commands {
        keep_streams(alloc, streams, command)?;
    }
    Ok(())
}

/// These commands are run. After `Memory` only some of them count.
pub(crate) fn keep_all_open(
    alloc: Global,
    serials: &mut Vec<u32>,
    commands: &[Command],
) -> Result<(), Memory>
    ensures serials { OnOk result (serials.new.items ≡ open_after serials.old.items commands.now) }
    ensures full { OnErr result (list_any begins commands.now ≡ true) }
{
    for command in commands {
        keep_open(alloc, serials, command)?;
    }
    Ok(())
}
