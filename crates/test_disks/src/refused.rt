//! Recordings on disks in memory while one request for memory is refused: `rt try --test --fail-alloc N` refuses the
//! `N`th. The refusal may meet the feed, the command or the disk. What was kept before it is found again, and the
//! next recording has the result that the feed has with memory.
use chain_rules::{Command, Refusal};
use disk_model::MemDisk;
use feed_replies::{FeedFault, Kept, RunFault};
use gate_file::OpenFault;
use ogg_command::{Begin, Listed, Memory, NewStream};
use ogg_recorder::{Outcome, Recorder, record_feed};
use std::alloc::Global;
use std::process::Abort;
use std::test::Fail;
use test_feeds::{BEGIN_DESCRIBED, BEGIN_THREE, BEGIN_TWO, PUT_FOUR, ZEROS, bytes_of};

/// What a run leaves: whether the feed was read to its end, the reply lines, and the ends of the committed bytes that
/// an opening may then find.
type Left = (bool, &'static str, &'static [u64]);

/// A feed, and the result of its run on a new disk.
struct Row {
    /// Its bytes, in parts.
    feed: &'static [&'static [u8]],
    /// The result with memory.
    whole: Left,
    /// The results if memory is refused once.
    refused: &'static [Left],
}

const ROWS: [Row; 4] = [
    Row {
        feed: &ZEROS,
        whole: (true, "kept 1 31\nkept 2 1084\n", &[1084]),
        refused: &[
            (true, "refused 20 Memory\nrefused 3 NoLink\n", &[0]),
            (true, "refused 21 Disk\nrefused 1 Failed\n", &[0, 31]),
            (true, "kept 1 31\nrefused 20 Memory\n", &[31]),
            (true, "kept 1 31\nrefused 21 Disk\n", &[31, 1084]),
            (false, "", &[0]),
            (false, "kept 1 31\n", &[31]),
        ],
    },
    Row {
        feed: &[BEGIN_DESCRIBED],
        whole: (true, "kept 1 259\n", &[259]),
        refused: &[
            (true, "refused 20 Memory\n", &[0]),
            (true, "refused 21 Disk\n", &[0, 259]),
            (false, "", &[0]),
        ],
    },
    Row {
        feed: &[BEGIN_THREE],
        whole: (true, "kept 1 63\n", &[63]),
        refused: &[
            (true, "refused 20 Memory\n", &[0]),
            (true, "refused 21 Disk\n", &[0, 63]),
            (false, "", &[0]),
        ],
    },
    Row {
        feed: &[BEGIN_TWO, PUT_FOUR],
        whole: (true, "kept 1 62\nkept 2 151\n", &[151]),
        refused: &[
            (true, "refused 20 Memory\nrefused 3 NoLink\n", &[0]),
            (true, "refused 21 Disk\nrefused 1 Failed\n", &[0, 62]),
            (true, "kept 1 62\nrefused 20 Memory\n", &[62]),
            (true, "kept 1 62\nrefused 21 Disk\n", &[62, 151]),
            (false, "", &[0]),
            (false, "kept 1 62\n", &[62]),
        ],
    },
];

/// A disk with these bytes, made once more if memory is refused.
fn disk_of(alloc: Global, bytes: &[u8]) -> Result<MemDisk, Memory> {
    match MemDisk::of(alloc, bytes) {
        Ok(disk) => Ok(disk),
        Err(_) => MemDisk::of(alloc, bytes),
    }
}

/// Opens the disk, once more if memory is refused. After `Memory` the disk is as long as it was. If memory is
/// refused to the disk itself, the fault is `Disk`, and the byte that closes the file may have been written.
fn opened(alloc: Global, disk: MemDisk) -> Result<Recorder<MemDisk>, Fail> {
    let length = disk.contents().len();
    match Recorder::open(alloc, disk) {
        Ok(recorder) => Ok(recorder),
        Err((OpenFault::Memory, disk)) => {
            if disk.contents().len() != length {
                return Err(Fail::from("changed"));
            }
            opened_at_last(alloc, disk)
        }
        Err((OpenFault::Disk, disk)) => opened_at_last(alloc, disk),
        Err(_) => Err(Fail::from("not opened")),
    }
}

fn opened_at_last(alloc: Global, disk: MemDisk) -> Result<Recorder<MemDisk>, Fail> {
    match Recorder::open(alloc, disk) {
        Ok(recorder) => Ok(recorder),
        Err(_) => Err(Fail::from("not opened")),
    }
}

/// Records the feed onto a new disk. It returns whether the feed was read to its end or memory was refused to it, and
/// the end of the committed bytes that an opening then finds.
fn recorded(alloc: Global, feed: &[u8], replies: &mut Vec<u8>) -> Result<(bool, u64), Fail> {
    let mut recorder = opened(alloc, disk_of(alloc, b"")?)?;
    let answer = ran(alloc, feed, &mut recorder, replies);
    let end = end_of(alloc, recorder.give_back())?;
    match answer {
        Ok(()) => Ok((true, end)),
        Err(RunFault::Feed(FeedFault::Memory)) => Ok((false, end)),
        Err(fault) => Err(fault.into()),
    }
}

/// Records the feed.
fn ran(
    alloc: Global,
    feed: &[u8],
    recorder: &mut Recorder<MemDisk>,
    replies: &mut Vec<u8>,
) -> Result<(), RunFault> {
    let mut feed = feed;
    match record_feed(alloc, &mut feed, replies, recorder) {
        Ok(_) => Ok(()),
        Err(fault) => Err(fault),
    }
}

/// The end of the committed bytes that an opening of this disk finds.
fn end_of(alloc: Global, disk: MemDisk) -> Result<u64, Fail> {
    Ok(opened(alloc, disk)?.end())
}

/// Whether a run has left this.
fn has_left(run: (bool, u64), replies: &[u8], left: &Left) -> bool {
    let (is_read, lines, ends) = *left;
    run.0 == is_read && replies == lines.as_bytes() && ends.contains(&run.1)
}

#[test]
fn a_recording_that_was_refused_memory_is_made_anew(rt: HostRuntime) -> Result<(), Fail> {
    let alloc = rt.alloc();
    let mut replies = bytes_of(alloc, &[&[0; 64]])?;
    for row in &ROWS {
        let feed = bytes_of(alloc, row.feed)?;
        replies.clear();
        let mut run = recorded(alloc, &feed, &mut replies)?;
        if !has_left(run, &replies, &row.whole) {
            assert!(rt; row.refused.iter().any(|left| has_left(run, &replies, left)));
            replies.clear();
            run = recorded(alloc, &feed, &mut replies)?;
        }
        assert!(rt; has_left(run, &replies, &row.whole));
    }
    Ok(())
}

/// Two streams in a link. The second packet of stream 1 has two parts, and a page of stream 2 comes between them. The
/// checksums are by another program.
const TWO_STREAMS: [&[u8]; 11] = [
    b"OggS\0\x02\0\0\0\0\0\0\0\0\x01\0\0\0\0\0\0\0\x92\xdd\xf6\x15\x01\x03abc",
    b"OggS\0\x02\0\0\0\0\0\0\0\0\x02\0\0\0\0\0\0\0u\x8e\x83-\x01\x03abc",
    b"OggS\0\0\xff\xff\xff\xff\xff\xff\xff\xff\x01\0\0\0\x01\0\0\0\xb3!\xbe\x1a\xff",
    &[255; 255],
    &[7; 65_025],
    b"OggS\0\0\x01\0\0\0\0\0\0\0\x02\0\0\0\x01\0\0\0\xaf\x18\xff\xf9\x01\x01x",
    b"OggS\0\x05\x09\0\0\0\0\0\0\0\x01\0\0\0\x02\0\0\0\x1e\x92\xa9\xda\x14",
    &[255; 19],
    &[130],
    &[7; 4975],
    b"OggS\0\x04\x01\0\0\0\0\0\0\0\x02\0\0\0\x02\0\0\0\x8ai\x18\xad\0",
];

/// The begin of a stream with this serial and the header `abc`.
fn begin(alloc: Global, serial: u32) -> Result<Command, Memory> {
    let mut headers = Vec::new(alloc);
    headers.push(Listed::of(Vec::from_slice(alloc, b"abc")?))?;
    let mut streams = Vec::new(alloc);
    streams.push(NewStream {
        serial,
        headers: Listed::of(headers),
        media: Listed::of(Vec::new(alloc)),
        fields: Listed::of(Vec::new(alloc)),
        rate: (1, 1),
        base_granule: 0,
        preroll: 0,
        shift: 0,
    })?;
    Ok(Command::Begin(Begin {
        skeleton: None,
        streams: Listed::of(streams),
    }))
}

/// That begin, made once more if memory is refused.
fn begin_of(alloc: Global, serial: u32) -> Result<Command, Memory> {
    match begin(alloc, serial) {
        Ok(command) => Ok(command),
        Err(_) => begin(alloc, serial),
    }
}

/// Whether the begin is kept, as the one command, and the committed bytes end here.
fn is_begun(recorder: &Recorder<MemDisk>, answer: Result<Outcome, Refusal>, end: u64) -> bool {
    answer == Ok(Outcome::Kept(Kept { count: 1, end })) && recorder.end() == end
}

/// Gives the command, and again if memory is refused. Then nothing has changed before.
fn given(
    recorder: &mut Recorder<MemDisk>,
    command: &Command,
    end: u64,
) -> Result<Result<Outcome, Refusal>, Fail> {
    let answer = recorder.command(command);
    if answer != Err(Refusal::Memory) {
        return Ok(answer);
    }
    if (recorder.count(), recorder.held(), recorder.end()) != (0, 0, end) {
        return Err(Fail::from("changed"));
    }
    Ok(recorder.command(command))
}

/// Opens the file again after `Disk`, and gives the begin if the file doesn't have it.
fn begins_again(
    alloc: Global,
    recorder: Recorder<MemDisk>,
    command: &Command,
    end: u64,
) -> Result<bool, Fail> {
    let mut again = opened(alloc, recorder.give_back())?;
    Ok(again.end() == end || is_begun_by(&mut again, command, end))
}

/// Whether a command is refused, since the disk has failed.
fn has_failed(recorder: &mut Recorder<MemDisk>, command: &Command) -> bool {
    recorder.command(command) == Err(Refusal::Failed)
}

/// Gives the begin, and returns whether it is kept.
fn is_begun_by(recorder: &mut Recorder<MemDisk>, command: &Command, end: u64) -> bool {
    let answer = recorder.command(command);
    is_begun(recorder, answer, end)
}

/// Gives the recorder of a file with `end` committed bytes a begin that has a page of 31 bytes, and returns whether
/// the end is then 31 bytes later. After `Memory` nothing has changed, and the command is given again. After `Disk`
/// the file is opened again, and the command is given again if the file doesn't have it.
fn begins(
    alloc: Global,
    recorder: Recorder<MemDisk>,
    command: &Command,
    end: u64,
) -> Result<bool, Fail> {
    let mut recorder = recorder;
    let later = end.saturating_add(31);
    match begun(&mut recorder, command, end, later)? {
        Some(is_begun) => Ok(is_begun),
        None => begins_again(alloc, recorder, command, later),
    }
}

/// Gives the begin, and returns whether it is kept; or `None` after `Disk`, if the end is as it was and the recorder
/// has failed.
fn begun(
    recorder: &mut Recorder<MemDisk>,
    command: &Command,
    end: u64,
    later: u64,
) -> Result<Option<bool>, Fail> {
    let answer = given(recorder, command, end)?;
    if answer != Err(Refusal::Disk) {
        return Ok(Some(is_begun(recorder, answer, later)));
    }
    if recorder.end() == end && has_failed(recorder, command) {
        return Ok(None);
    }
    Ok(Some(false))
}

#[test]
fn a_file_is_opened_again_after_memory_was_refused(rt: HostRuntime) -> Result<(), Fail> {
    let alloc = rt.alloc();
    let bytes = bytes_of(alloc, &TWO_STREAMS)?;
    let taken = begin_of(alloc, 1)?;
    let new = begin_of(alloc, 3)?;
    let mut recorder = opened(alloc, disk_of(alloc, &bytes)?)?;
    assert!(rt; (recorder.end(), recorder.tail()) == (70_447, 0));
    assert!(rt; recorder.command(&taken) == Err(Refusal::SerialTaken));
    assert!(rt; begins(alloc, recorder, &new, 70_447)?);
    Ok(())
}
