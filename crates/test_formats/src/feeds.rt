//! Feeds and lines written out by hand, cut and broken everywhere.
ghost use Rattle.std.specs.Prelude.{◌≡◌, Some};
ghost use Rattle.feed_records.specs.Record.{FitsRecord};
ghost use Rattle.feed_records.specs.declared.version.Version.{Version as VersionOf};

use crate::files::joined;
use fakes::{FakeReader, FakeWriter};
use feed_codec::*;
use ogg_command::{Begin, Command, Memory, Put, Refusal, SkeletonHead};
use ogg_page::WriteFault;
use std::alloc::Global;
use std::process::Abort;
use std::test::Fail;

pub(crate) mod fakes;

/// The announcement of version 2.
pub(crate) const ANNOUNCEMENT: [u8; 6] = *b"\0\x01\0\0\0\x02";

/// A begin of a stream with serial 1 and the header `abc`.
pub(crate) const BEGIN: [u8; 52] = *b"\x01\x2f\0\0\0\0\x01\0\x01\0\0\0\x01\0\x03\0\0\0abc\0\0\
    \0\0\0\0\0\0\0\0\0\0\0\0\0\0\0\0\0\0\0\0\0\0\0\0\0\0\0\0\0";

/// The same in version 2, and the stream has the field `Title`.
const BEGIN_2: [u8; 66] = *b"\x01\x3d\0\0\0\0\x01\0\x01\0\0\0\x01\0\x03\0\0\0abc\0\0\
    \0\0\0\0\0\0\0\0\0\0\0\0\0\0\0\0\0\0\0\0\0\0\0\0\0\0\0\0\0\
    \x01\0\x05\0Title\x03\0One";

/// The packet `hello` at position 5.
pub(crate) const PUT: [u8; 28] =
    *b"\x02\x17\0\0\0\x01\0\x01\0\0\0\x05\0\0\0\0\0\0\0\x05\0\0\0hello";

/// The stream's end.
pub(crate) const END: [u8; 9] = *b"\x03\x04\0\0\0\x01\0\0\0";

/// A flush.
pub(crate) const FLUSH: [u8; 5] = *b"\x04\0\0\0\0";

/// A feed of a begin, a packet and an end: 52, 28 and 9 bytes.
const FEED: [&[u8]; 3] = [&BEGIN, &PUT, &END];

/// A feed of version 2: its announcement, a begin, a packet and a flush: 6, 66, 28 and 5 bytes.
const FEED_2: [&[u8]; 4] = [&ANNOUNCEMENT, &BEGIN_2, &PUT, &FLUSH];

/// A begin with a Skeleton and no stream: serial 7, 1000/-2, 3/4 and a time of 20 letters.
const SKELETON: [u8; 64] =
    *b"\x01\x3b\0\0\0\x01\x07\0\0\0\xe8\x03\0\0\0\0\0\0\xfe\xff\xff\xff\xff\xff\xff\xff\
    \x03\0\0\0\0\0\0\0\x04\0\0\0\0\0\0\0uuuuuuuuuuuuuuuuuuuu\0\0";

/// Bytes that begin with no record, and what is wrong with them.
const FAULTY: [(&[u8], FeedFault); 20] = [
    (b"\x01", FeedFault::Truncated),
    (b"\x09\xff\xff\xff", FeedFault::Truncated),
    (b"\x09\xff\xff\xff\xff", FeedFault::Kind),
    (b"\x05\x04\0\0\0\x01\0\0\0", FeedFault::Kind),
    (b"\0\x04\0\0\0\x02\0\0\0", FeedFault::Form),
    (b"\x04\x04\0\0\0\x01\0\0\0", FeedFault::Form),
    (b"\0\x01\0\0", FeedFault::Truncated),
    (b"\0\x01\0\0\x02", FeedFault::Length),
    (b"\0\x01\0\0\0", FeedFault::Truncated),
    (b"\0\x01\0\0\0\x03", FeedFault::Form),
    (b"\0\x01\0\0\0\x02\0\x01\0\0\0\x02", FeedFault::Kind),
    (b"\0\x01\0\0\0\x02\x04", FeedFault::Truncated),
    (b"\0\x01\0\0\0\x02\x01\x03\0\0\0\x02\0\0", FeedFault::Form),
    (b"\x01\x01\0\0\x02", FeedFault::Length),
    (b"\x01\0\0\0\x02", FeedFault::Truncated),
    (b"\x03\x03\0\0\0\x01\0\0", FeedFault::Form),
    (b"\x03\x05\0\0\0\x01\0\0\0\0", FeedFault::Form),
    (b"\x02\0\0\0\0", FeedFault::Form),
    (b"\x02\x02\0\0\0\x01\0", FeedFault::Form),
    (b"\x01\x03\0\0\0\x02\0\0", FeedFault::Form),
];

/// Feeds of which a record is in the wrong place or has the wrong form, how many records come before it, and the fault.
const MIXED: [(&[&[u8]], usize, FeedFault); 4] = [
    // a begin of version 1 after the announcement, and the announcement after a record
    (&[&ANNOUNCEMENT, &BEGIN], 0, FeedFault::Form),
    (&[&BEGIN, &ANNOUNCEMENT], 1, FeedFault::Kind),
    // a begin of version 2 with no announcement
    (&[&BEGIN_2], 0, FeedFault::Form),
    // a begin with a byte more than its streams take
    (
        &[
            b"\x01\x30\0\0\0\0\x01\0\x01\0\0\0\x01\0\x03\0\0\0abc\0\0\
            \0\0\0\0\0\0\0\0\0\0\0\0\0\0\0\0\0\0\0\0\0\0\0\0\0\0\0\0\0\0",
        ],
        0,
        FeedFault::Form,
    ),
];

/// The result of a feed: its commands' records, how many there were, and the fault that ended it.
#[derive(Drop)]
struct Outcome {
    records: Vec<u8>,
    commands: usize,
    fault: Option<FeedFault>,
}

/// Reads a feed to its end, and checks whether that end stays and nothing more is read.
fn read(rt: &impl Abort, alloc: Global, mut reader: FakeReader) -> Result<Outcome, Memory> {
    let mut records = Vec::new(alloc);
    let mut feed = Feed::new(alloc);
    for commands in 0..4 {
        let fault = match feed.next(&mut reader) {
            Ok(Some(Record::Command(command))) => {
                write_again(&feed, &command, &mut records)?;
                continue;
            }
            Ok(Some(Record::Flush)) => {
                write_flush(&mut records)?;
                continue;
            }
            Ok(None) => None,
            Err(fault) => Some(fault),
        };
        let calls = reader.calls();
        match feed.next(&mut reader) {
            Ok(None) => assert!(rt; fault.is_none(), "the end stays"),
            Ok(Some(_)) => assert!(rt; false, "a command after the end"),
            Err(again) => assert!(rt; fault == Some(again), "the fault stays"),
        }
        assert!(rt; reader.calls() == calls, "nothing is read after the end");
        if fault == Some(FeedFault::Memory) {
            return Err(Memory);
        }
        return Ok(Outcome {
            records,
            commands,
            fault,
        });
    }
    assert!(rt; false, "a fourth command");
    Err(Memory)
}

/// Writes a command as it was read.
fn write_again(feed: &Feed, command: &Command, records: &mut Vec<u8>) -> Result<(), Memory>
    requires { (version : VersionOf) × (feed.now.feed.version ≡ Some version) × FitsRecord version command.now }
{
    match feed.version() {
        Some(Version::One) => write_command(command, records),
        Some(Version::Two) => write_command_2(command, records),
        None => Ok(()),
    }
}

/// The same, and once more if memory was refused.
fn run(
    rt: &impl Abort,
    alloc: Global,
    bytes: &[u8],
    step: usize,
    bad: u64,
) -> Result<Outcome, Memory> {
    match read(rt, alloc, FakeReader::new(bytes, step, bad)) {
        Ok(run) => Ok(run),
        Err(_) => read(rt, alloc, FakeReader::new(bytes, step, bad)),
    }
}

/// A feed in pieces, how many bytes its announcement has, and where its records end.
type Shape = (&'static [&'static [u8]], usize, &'static [usize]);

const SHAPES: [Shape; 2] = [(&FEED, 0, &[52, 80, 89]), (&FEED_2, 6, &[72, 100, 105])];

/// How many of the records end within the first `length` bytes.
fn whole_records(ends: &[usize], length: usize) -> usize {
    ends.iter().filter(|end| **end <= length).count()
}

/// What follows the first `count` bytes.
fn after(bytes: &[u8], count: usize) -> &[u8] {
    bytes.get(count..).unwrap_or(&[])
}

#[test]
fn a_feed_cut_at_every_byte_ends_inside_a_record_or_between_two(
    rt: HostRuntime,
) -> Result<(), Fail> {
    for &(pieces, announcement, ends) in &SHAPES {
        let feed = joined(rt.alloc(), pieces)?;
        for length in 0..=feed.len() {
            let bytes = feed.get(..length).unwrap_or(&feed);
            let run = run(&rt, rt.alloc(), bytes, 64, 0)?;
            let between = length == 0 || length == announcement || ends.contains(&length);
            let fault = if between {
                None
            } else {
                Some(FeedFault::Truncated)
            };
            let want = (fault, whole_records(ends, length));
            assert!(rt; (run.fault, run.commands) == want);
            assert!(rt; after(bytes, announcement).starts_with(&run.records));
        }
    }
    Ok(())
}

/// Feeds in pieces, how many bytes the announcement has, how many bytes a read takes, and how many records there are.
const WRITTEN: [(&[&[u8]], usize, usize, usize); 3] = [
    (&FEED, 0, 1, 3),
    (&[&SKELETON], 0, 7, 1),
    (&FEED_2, 6, 1, 3),
];

#[test]
fn what_was_read_is_written_the_same(rt: HostRuntime) -> Result<(), Fail> {
    for &(pieces, announcement, step, commands) in &WRITTEN {
        let feed = joined(rt.alloc(), pieces)?;
        let all = run(&rt, rt.alloc(), &feed, step, 0)?;
        assert!(rt; (all.fault, all.commands) == (None, commands));
        assert!(rt; all.records.as_slice() == after(&feed, announcement));
    }
    let mut announced = Vec::new(rt.alloc());
    write_version(&mut announced)?;
    assert!(rt; announced.as_slice() == ANNOUNCEMENT.as_slice());
    Ok(())
}

#[test]
fn the_first_fault_is_told(rt: HostRuntime) -> Result<(), Fail> {
    for &(bytes, fault) in &FAULTY {
        let run = run(&rt, rt.alloc(), bytes, 2, 0)?;
        assert!(rt; (run.commands, run.fault) == (0, Some(fault)));
    }
    for &(pieces, commands, fault) in &MIXED {
        let bytes = joined(rt.alloc(), pieces)?;
        let run = run(&rt, rt.alloc(), &bytes, 64, 0)?;
        assert!(rt; (run.commands, run.fault) == (commands, Some(fault)));
    }
    Ok(())
}

#[test]
fn a_failing_reader_is_a_fault_that_stays(rt: HostRuntime) -> Result<(), Fail> {
    let feed = joined(rt.alloc(), &FEED)?;
    for whole in 0..=89usize {
        let run = run(&rt, rt.alloc(), &feed, 1, whole as u64 + 1)?;
        let want = (Some(FeedFault::Read), whole_records(&[52, 80, 89], whole));
        assert!(rt; (run.fault, run.commands) == want);
    }
    Ok(())
}

/// The record after the first `count` records of a feed.
fn record_after(alloc: Global, bytes: &[u8], count: u32) -> Result<Option<Record>, FeedFault> {
    let mut feed = Feed::new(alloc);
    let mut reader = FakeReader::new(bytes, 64, 0);
    for _ in 0..count {
        feed.next(&mut reader)?;
    }
    feed.next(&mut reader)
}

/// The begin that a feed begins with.
fn begin_of(alloc: Global, bytes: &[u8]) -> Result<Begin, Fail> {
    match record_after(alloc, bytes, 0)? {
        Some(Record::Command(Command::Begin(begin))) => Ok(begin),
        _other => Err("no begin")?,
    }
}

/// The put after the first record of a feed.
fn put_of(alloc: Global, bytes: &[u8]) -> Result<Put, Fail> {
    match record_after(alloc, bytes, 1)? {
        Some(Record::Command(Command::Put(put))) => Ok(put),
        _other => Err("no put")?,
    }
}

/// The serial of the end after the first two records of a feed.
fn end_of(alloc: Global, bytes: &[u8]) -> Result<u32, Fail> {
    match record_after(alloc, bytes, 2)? {
        Some(Record::Command(Command::End(serial))) => Ok(serial),
        _other => Err("no end")?,
    }
}

/// The only stream of a begin: its serial, how long its media type is, the shift, and its only header.
fn only_stream(begin: &Begin) -> Option<((u32, usize, u8), &[u8])> {
    let stream = only(begin.streams.as_slice())?;
    let header = only(stream.headers.as_slice())?;
    Some((
        (stream.serial, stream.media.len(), stream.shift),
        header.as_slice(),
    ))
}

/// The name and the value of the only field of the only stream of a begin.
fn only_field(begin: &Begin) -> Option<(&[u8], &[u8])> {
    let stream = only(begin.streams.as_slice())?;
    let field = only(stream.fields.as_slice())?;
    Some((field.name(), field.value()))
}

/// The only packet of a put: its serial, its position and its bytes.
fn only_entry(put: &Put) -> Option<((u32, u64), &[u8])> {
    let entry = only(put.entries.as_slice())?;
    Some(((entry.serial, entry.position), entry.packet.as_slice()))
}

/// The only item of a list.
fn only<T>(items: &[T]) -> Option<&T> {
    match items {
        [item] => Some(item),
        _ => None,
    }
}

#[test]
fn commands_tell_their_streams(rt: HostRuntime) -> Result<(), Fail> {
    let begin = begin_of(rt.alloc(), &BEGIN)?;
    assert!(rt; begin.skeleton == None);
    assert!(rt; only_stream(&begin) == Some(((1, 0, 0), b"abc".as_slice())));
    let feed_2 = joined(rt.alloc(), &FEED_2)?;
    let begin = begin_of(rt.alloc(), &feed_2)?;
    assert!(rt; only_field(&begin) == Some((b"Title".as_slice(), b"One".as_slice())));
    let feed = joined(rt.alloc(), &FEED)?;
    let put = put_of(rt.alloc(), &feed)?;
    assert!(rt; only_entry(&put) == Some(((1, 5), b"hello".as_slice())));
    assert!(rt; end_of(rt.alloc(), &feed)? == 1);
    Ok(())
}

#[test]
fn a_begin_tells_its_skeleton(rt: HostRuntime) -> Result<(), Fail> {
    let want = SkeletonHead {
        serial: 7,
        presentation: (1000, -2),
        base: (3, 4),
        utc: [b'u'; 20],
    };
    let begin = begin_of(rt.alloc(), &SKELETON)?;
    assert!(rt; begin.skeleton == Some(want));
    Ok(())
}

#[test]
fn a_feed_tells_its_version_and_its_flushes(rt: HostRuntime) -> Result<(), Fail> {
    let bytes = joined(rt.alloc(), &FEED_2)?;
    let mut feed = Feed::new(rt.alloc());
    let mut reader = FakeReader::new(&bytes, 64, 0);
    assert!(rt; feed.version() == None);
    feed.next(&mut reader)?;
    assert!(rt; feed.version() == Some(Version::Two));
    assert!(rt; matches!(feed.next(&mut reader), Ok(Some(Record::Command(_)))));
    assert!(rt; matches!(feed.next(&mut reader), Ok(Some(Record::Flush))));
    Ok(())
}

/// A reply, how many bytes a write takes and which write fails, whether the call succeeds, what is written, and how
/// often the writer is called: a line is one write.
type Line = (
    Reply,
    (usize, u64),
    Result<(), WriteFault>,
    &'static str,
    u64,
);

const KEPT: Reply = Reply::Kept(Kept { count: 2, end: 64 });

const LINES: [Line; 7] = [
    (Reply::Held(3), (64, 0), Ok(()), "held 3\n", 1),
    (KEPT, (64, 0), Ok(()), "kept 2 64\n", 1),
    (
        Reply::Kept(Kept { count: 0, end: 0 }),
        (64, 0),
        Ok(()),
        "kept 0 0\n",
        1,
    ),
    (
        Reply::Kept(Kept {
            count: u64::MAX,
            end: u64::MAX,
        }),
        (64, 0),
        Ok(()),
        "kept 18446744073709551615 18446744073709551615\n",
        1,
    ),
    (
        Reply::Refused(Refusal::UnknownSerial),
        (64, 0),
        Ok(()),
        "refused 12 UnknownSerial\n",
        1,
    ),
    // A writer that takes nothing, and one whose third call fails.
    (KEPT, (0, 0), Err(WriteFault), "", 1),
    (KEPT, (3, 3), Err(WriteFault), "kept 2", 3),
];

#[test]
fn replies_are_lines_of_which_a_failing_writer_has_a_front(rt: HostRuntime) -> Result<(), Fail> {
    for &(reply, (step, bad), want, line, calls) in &LINES {
        let mut writer = FakeWriter::new(Vec::with_capacity(rt.alloc(), 64)?, step, bad);
        assert!(rt; write_reply(&reply, &mut writer) == want);
        assert!(rt; (writer.written(), writer.calls()) == (line.as_bytes(), calls));
    }
    Ok(())
}

#[test]
fn a_tally_adds_up(rt: HostRuntime) {
    let tally = Tally {
        commands: 4,
        kept: 3,
        refused: 1,
        end: 91,
    };
    assert!(rt; tally.kept + 1 == tally.commands);
}
