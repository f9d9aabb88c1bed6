//! Commands, pages and recorders for the tests.
use chain_rules::{Command, Refusal};
use disk_model::{Disk, MemDisk};
use gate_file::OpenFault;
use ogg_command::{Begin, Entry, Listed, NewStream, Put};
use ogg_page::{PageHead, close_page, open_page};
use ogg_recorder::{Outcome, Recorder};
use std::alloc::Global;
use std::test::Fail;

/// What a recorder is given.
#[derive(Clone, Copy)]
pub(super) enum Given {
    /// A begin of streams with these serials and the header `abc`.
    Begin(&'static [u32]),
    /// A put of packets, each with its serial and its position.
    Put(&'static [(u32, u64, &'static [u8])]),
    /// A put of one packet of zeros, of this length, for stream 1 at position 5.
    Zeros(usize),
    /// The end of the stream with this serial.
    End(u32),
    Flush,
}

/// What the recorder answers: how many commands were accepted; or how many, and the length of the file; or why not.
#[derive(Clone, Copy, PartialEq, Eq)]
pub(super) enum Answer {
    Held(u64),
    Kept(u64, u64),
    Refused(Refusal),
}

/// Gives the command to the recorder, or flushes it.
pub(super) fn give<D: Disk>(
    alloc: Global,
    recorder: &mut Recorder<D>,
    given: Given,
) -> Result<Answer, Fail> {
    match command_of(alloc, given)? {
        Some(command) => Ok(commanded(recorder, &command)),
        None => Ok(flushed(recorder)),
    }
}

fn commanded<D: Disk>(recorder: &mut Recorder<D>, command: &Command) -> Answer {
    match recorder.command(command) {
        Ok(Outcome::Held(count)) => Answer::Held(count),
        Ok(Outcome::Kept(kept)) => Answer::Kept(kept.count, kept.end),
        Err(refusal) => Answer::Refused(refusal),
    }
}

fn flushed<D: Disk>(recorder: &mut Recorder<D>) -> Answer {
    match recorder.flush() {
        Ok(kept) => Answer::Kept(kept.count, kept.end),
        Err(refusal) => Answer::Refused(refusal),
    }
}

/// The command, or `None` for a flush.
fn command_of(alloc: Global, given: Given) -> Result<Option<Command>, Fail> {
    match given {
        Given::Begin(serials) => Ok(Some(begin(alloc, serials)?)),
        Given::Put(entries) => Ok(Some(put(alloc, entries)?)),
        Given::Zeros(length) => Ok(Some(zeros(alloc, length)?)),
        Given::End(serial) => Ok(Some(Command::End(serial))),
        Given::Flush => Ok(None),
    }
}

fn begin(alloc: Global, serials: &[u32]) -> Result<Command, Fail> {
    let mut streams = Vec::new(alloc);
    for serial in serials {
        let mut headers = Vec::new(alloc);
        headers.push(Listed::of(Vec::from_slice(alloc, b"abc")?))?;
        streams.push(NewStream {
            serial: *serial,
            headers: Listed::of(headers),
            media: Listed::of(Vec::new(alloc)),
            fields: Listed::of(Vec::new(alloc)),
            rate: (1, 1),
            base_granule: 0,
            preroll: 0,
            shift: 0,
        })?;
    }
    Ok(Command::Begin(Begin {
        skeleton: None,
        streams: Listed::of(streams),
    }))
}

fn put(alloc: Global, packets: &[(u32, u64, &[u8])]) -> Result<Command, Fail> {
    let mut entries = Vec::new(alloc);
    for (serial, position, packet) in packets {
        entries.push(Entry {
            serial: *serial,
            position: *position,
            packet: Listed::of(Vec::from_slice(alloc, packet)?),
        })?;
    }
    Ok(Command::Put(Put {
        entries: Listed::of(entries),
    }))
}

fn zeros(alloc: Global, length: usize) -> Result<Command, Fail> {
    let mut packet = Vec::new(alloc);
    packet.resize(length, 0)?;
    let mut entries = Vec::new(alloc);
    entries.push(Entry {
        serial: 1,
        position: 5,
        packet: Listed::of(packet),
    })?;
    Ok(Command::Put(Put {
        entries: Listed::of(entries),
    }))
}

/// A page by hand: its serial, flags, position, sequence, lacing values and body.
pub(super) type ByHand = (u32, u8, u64, u32, &'static [u8], &'static [u8]);

/// The pages of the first rows: of 31, 33 and 27 bytes.
pub(super) const ROW_1: ByHand = (1, 2, 0, 0, &[3], b"abc");

pub(super) const ROW_2: ByHand = (1, 0, 5, 1, &[5], b"hello");

pub(super) const ROW_3: ByHand = (1, 4, 5, 2, &[], b"");

/// The pages, joined.
pub(super) fn joined(alloc: Global, pages: &[ByHand]) -> Result<Vec<u8>, Fail> {
    let mut bytes = Vec::new(alloc);
    for page in pages {
        bytes.extend_from_slice(&page_of(alloc, *page)?)?;
    }
    Ok(bytes)
}

/// The pages and what follows them.
pub(super) fn file_of(alloc: Global, pages: &[ByHand], tail: &[u8]) -> Result<Vec<u8>, Fail> {
    let mut bytes = joined(alloc, pages)?;
    bytes.extend_from_slice(tail)?;
    Ok(bytes)
}

/// The page's bytes.
fn page_of(alloc: Global, page: ByHand) -> Result<Vec<u8>, Fail> {
    let (serial, flags, position, sequence, lacing, body) = page;
    let head = PageHead {
        flags,
        position,
        serial,
        sequence,
    };
    let mut bytes = Vec::new(alloc);
    bytes.reserve(283)?;
    if lacing.len() > 255 {
        return Err(Fail::from("lacing"));
    }
    open_page(&head, lacing, &mut bytes);
    bytes.extend_from_slice(body)?;
    close_page(0, &mut bytes);
    Ok(bytes)
}

/// A recorder, if the file can be opened.
pub(super) fn try_open<D: Disk + Drop>(alloc: Global, disk: D) -> Option<Recorder<D>> {
    match Recorder::open(alloc, disk) {
        Ok(recorder) => Some(recorder),
        Err(_) => None,
    }
}

pub(super) fn opened<D: Disk + Drop>(alloc: Global, disk: D) -> Result<Recorder<D>, Fail> {
    match try_open(alloc, disk) {
        Some(recorder) => Ok(recorder),
        None => Err(Fail::from("not opened")),
    }
}

/// The end of the committed bytes and how many follow, or the fault. After a fault the contents stay as they are.
pub(super) fn ends(alloc: Global, bytes: &[u8]) -> Result<Result<(u64, u64), OpenFault>, Fail> {
    match Recorder::open(alloc, MemDisk::of(alloc, bytes)?) {
        Ok(recorder) => Ok(Ok((recorder.end(), recorder.tail()))),
        Err((fault, disk)) => {
            if disk.contents() != bytes {
                return Err(Fail::from("changed"));
            }
            Ok(Err(fault))
        }
    }
}

/// From now on `most` commands share a commit, if nothing waits.
pub(super) fn group<D: Disk>(recorder: &mut Recorder<D>, most: u32) {
    if most > 0 && most <= 1024 && recorder.held() == 0 {
        recorder.group(most);
    }
}
