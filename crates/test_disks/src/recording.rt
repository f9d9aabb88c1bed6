//! Feeds recorded onto disks in memory, and what an opening finds after them.
use disk_model::{Disk, FuseDisk, MemDisk};
use feed_replies::{FeedFault, RunFault};
use ogg_command::Memory;
use ogg_recorder::{Recorder, record_feed};
use std::alloc::Global;
use std::process::Abort;
use std::test::Fail;

/// One stream begins, with serial 1 and the header `abc`.
const BEGIN: &[u8] = b"\x01\x2f\0\0\0\0\x01\0\x01\0\0\0\x01\0\x03\0\0\0abc\0\0\
    \0\0\0\0\0\0\0\0\0\0\0\0\0\0\0\0\0\0\0\0\0\0\0\0\0\0\0\0\0";

/// Stream 1 gets the packet `hello` at position 5.
const PUT: &[u8] = b"\x02\x17\0\0\0\x01\0\x01\0\0\0\x05\0\0\0\0\0\0\0\x05\0\0\0hello";

/// The same for a stream with serial 7, which no link has.
const PUT_ELSEWHERE: &[u8] = b"\x02\x17\0\0\0\x01\0\x07\0\0\0\x05\0\0\0\0\0\0\0\x05\0\0\0hello";

/// Stream 1 ends.
const END: &[u8] = b"\x03\x04\0\0\0\x01\0\0\0";

const FLUSH: &[u8] = b"\x04\0\0\0\0";

/// A feed that breaks off in a put.
const BROKEN_OFF: &[u8] = b"\x02\x17\0\0\0\x01\0\x01";

/// How a run ended: the counts of all, of the kept and of the refused commands, and the length.
type Came = Result<(u64, u64, u64, u64), RunFault>;

/// A feed, how many commands share a commit, which call of the disk fails once if one does, the reply lines, how the
/// run ended, and the end of the committed bytes that an opening then finds.
struct Run {
    feed: &'static [&'static [u8]],
    most: u32,
    bad: u64,
    lines: &'static str,
    came: Came,
    end: u64,
}

const RUNS: &[Run] = &[
    Run {
        feed: &[BEGIN, PUT, END, END],
        most: 1,
        bad: 0,
        lines: "kept 1 31\nkept 2 64\nkept 3 91\nrefused 3 NoLink\n",
        came: Ok((4, 3, 1, 91)),
        end: 91,
    },
    // A refusal, the end and a flush don't change the commands before and after them.
    Run {
        feed: &[BEGIN, PUT_ELSEWHERE, PUT, FLUSH, END],
        most: 8,
        bad: 0,
        lines: "held 1\nrefused 12 UnknownSerial\nheld 2\nkept 2 64\nheld 3\nkept 3 91\n",
        came: Ok((4, 3, 1, 91)),
        end: 91,
    },
    Run {
        feed: &[BEGIN, PUT, BROKEN_OFF],
        most: 8,
        bad: 0,
        lines: "held 1\nheld 2\nkept 2 64\n",
        came: Err(RunFault::Feed(FeedFault::Truncated)),
        end: 64,
    },
    // The opening makes four calls of the disk and a command of one page four more, the last of which is a sync. Here
    // the second command's last sync fails, after its commit byte was written.
    Run {
        feed: &[BEGIN, PUT, END, FLUSH],
        most: 1,
        bad: 12,
        lines: "kept 1 31\nrefused 21 Disk\nrefused 1 Failed\nrefused 1 Failed\n",
        came: Ok((3, 1, 2, 31)),
        end: 64,
    },
    // The second command's first sync fails, and no commit byte is written.
    Run {
        feed: &[BEGIN, PUT, END],
        most: 1,
        bad: 10,
        lines: "kept 1 31\nrefused 21 Disk\nrefused 1 Failed\n",
        came: Ok((3, 1, 2, 31)),
        end: 31,
    },
    // The first sync of the flush at the end fails, after two commands are staged.
    Run {
        feed: &[BEGIN, PUT],
        most: 8,
        bad: 7,
        lines: "held 1\nheld 2\nrefused 21 Disk\n",
        came: Ok((2, 0, 2, 0)),
        end: 0,
    },
];

fn joined(alloc: Global, parts: &[&[u8]]) -> Result<Vec<u8>, Memory> {
    let mut feed = Vec::new(alloc);
    for part in parts {
        feed.extend_from_slice(part)?;
    }
    Ok(feed)
}

/// A recorder on this disk, whose commands share commits in groups of `most`.
fn opened<D: Disk + Drop>(alloc: Global, disk: D, most: u32) -> Result<Recorder<D>, Fail> {
    match Recorder::open(alloc, disk) {
        Ok(mut recorder) => {
            if most > 0 && most <= 1024 && recorder.held() == 0 {
                recorder.group(most);
            }
            Ok(recorder)
        }
        Err(_) => Err(Fail::from("not opened")),
    }
}

/// Records the feed. It returns how the run ended, and the end of the committed bytes that an opening then finds.
fn recorded(
    alloc: Global,
    feed: &[u8],
    disk: FuseDisk<MemDisk>,
    most: u32,
    replies: &mut Vec<u8>,
) -> Result<(Came, u64), Fail> {
    let mut recorder = opened(alloc, disk, most)?;
    let came = ran(alloc, feed, &mut recorder, replies);
    Ok((came, end_of(alloc, recorder.give_back().into_inner())?))
}

/// Records the feed.
fn ran<D: Disk>(
    alloc: Global,
    feed: &[u8],
    recorder: &mut Recorder<D>,
    replies: &mut Vec<u8>,
) -> Came {
    let mut feed = feed;
    match record_feed(alloc, &mut feed, replies, recorder) {
        Ok(tally) => Ok((tally.commands, tally.kept, tally.refused, tally.end)),
        Err(fault) => Err(fault),
    }
}

/// The end of the committed bytes that an opening of this disk finds.
fn end_of(alloc: Global, disk: MemDisk) -> Result<u64, Fail> {
    Ok(opened(alloc, disk, 1)?.end())
}

#[test]
fn feeds_are_answered_and_found_again_as_the_rows_say(rt: HostRuntime) -> Result<(), Fail> {
    let alloc = rt.alloc();
    for run in RUNS {
        let feed = joined(alloc, run.feed)?;
        let disk = FuseDisk::fail_once(MemDisk::of(alloc, b"")?, run.bad);
        let mut replies = Vec::new(alloc);
        let seen = recorded(alloc, &feed, disk, run.most, &mut replies)?;
        assert!(rt; seen == (run.came, run.end) && replies.as_slice() == run.lines.as_bytes());
    }
    Ok(())
}

/// How many commands of a group wait, and where the committed bytes end, after there is no more room for replies.
fn held_after(alloc: Global, room: &mut [u8]) -> Result<(u64, u64), Fail> {
    let feed = joined(alloc, &[BEGIN, PUT, END])?;
    let mut recorder = opened(alloc, MemDisk::of(alloc, b"")?, 8)?;
    let mut replies = room;
    match record_feed(alloc, &mut feed.as_slice(), &mut replies, &mut recorder) {
        Err(RunFault::Write) => Ok((recorder.held(), recorder.end())),
        _ => Err(Fail::from("the second line is written")),
    }
}

#[test]
fn a_writer_that_fails_ends_the_run_and_what_waits_still_waits(
    rt: HostRuntime,
) -> Result<(), Fail> {
    // Room for one line.
    let mut line = [0; 7];
    assert!(rt; held_after(rt.alloc(), &mut line)? == (2, 0));
    assert!(rt; &line == b"held 1\n");
    Ok(())
}
