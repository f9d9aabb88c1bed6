//! Connections whose reader or writer fails at one call, and a feed that is recorded meanwhile.
//!
//! A request of 30 bytes is read in three pieces. The response of 111 bytes and then 64 of the file is written in four.
use crate::fakes::{FakeReader, FakeWriter};
use crate::tools::{
    GET_ALL, OF_THREE, OF_TWO, TWO, ask, gives, holds, holds_failing, hub_after_two, hub_failing,
    hub_of,
};
use chain_rules::{Command, Refusal};
use disk_model::Disk;
use feed_replies::{Kept, Reply};
use ogg_serve::{Hub, HubFault, LiveFeed, OpenFault, Outcome, Served, Step, live_one, serve_one};
use std::alloc::Global;
use std::test::Fail;

/// Which read fails and which write, if any; how the connection ends, and how many bytes of the response were written.
const CONNECTIONS: [(u64, u64, Served, usize); 8] = [
    (0, 0, Served::Whole, 175),
    (1, 0, Served::Cut, 0),
    (2, 0, Served::Cut, 0),
    (3, 0, Served::Cut, 0),
    (0, 1, Served::Cut, 0),
    (0, 2, Served::Cut, 50),
    (0, 3, Served::Cut, 100),
    (0, 4, Served::Cut, 150),
];

/// Whether the hub has no session with this number.
fn is_gone<D: Disk + Drop>(hub: &mut Hub<D>, id: u64) -> bool {
    hub.pull(id, &mut [0; 1]) == Err(HubFault::NoSession)
}

/// How a connection ended, and how many bytes of the response were written, if these are its first ones.
type Ended = Option<(Result<Served, HubFault>, usize)>;

/// How a connection ended after which this is written.
fn ended(ends: Result<Served, HubFault>, written: &[u8], response: &[u8]) -> Ended {
    if response.starts_with(written) {
        Some((ends, written.len()))
    } else {
        None
    }
}

/// Serves a connection of which one call may fail.
fn served<D: Disk + Drop>(
    alloc: Global,
    hub: &mut Hub<D>,
    head: &[u8],
    (read, write): (u64, u64),
) -> Ended {
    let mut reader = FakeReader::new(head, read);
    let mut writer = FakeWriter::new(Vec::new(alloc), write);
    let ends = serve_one(hub, &mut reader, &mut writer);
    ended(ends, writer.written(), OF_TWO)
}

/// Whether each connection ends as it must, and its session is gone then.
fn are_cut<D: Disk + Drop>(alloc: Global, hub: &mut Hub<D>) -> bool {
    let mut id = 0u64;
    for &(read, write, ends, count) in &CONNECTIONS {
        let served = served(alloc, hub, GET_ALL, (read, write));
        if served != Some((Ok(ends), count)) || !is_gone(hub, id) {
            return false;
        }
        id = id.saturating_add(1);
    }
    true
}

#[test]
fn a_connection_is_cut_where_a_read_or_a_write_fails_and_its_session_is_gone(
    rt: HostRuntime,
) -> Result<(), Fail> {
    let alloc = rt.alloc();
    assert!(rt; holds(hub_of(alloc, TWO, 1), |hub| are_cut(alloc, hub))?);
    Ok(())
}

/// Heads of which the last byte is lacking, and none.
const NO_HEADS: [&[u8]; 2] = [b"", b"GET /all HTTP/1.1\r\nHost: a\r\n\r"];

/// Whether readers of these heads get nothing, and have no session then.
fn get_nothing<D: Disk + Drop>(alloc: Global, hub: &mut Hub<D>) -> bool {
    for head in &NO_HEADS {
        let served = served(alloc, hub, head, (0, 0));
        if served != Some((Ok(Served::NoHead), 0)) || !is_gone(hub, 0) || !is_gone(hub, 1) {
            return false;
        }
    }
    true
}

#[test]
fn a_reader_that_ends_too_early_gets_nothing(rt: HostRuntime) -> Result<(), Fail> {
    let alloc = rt.alloc();
    assert!(rt; holds(hub_of(alloc, TWO, 1), |hub| get_nothing(alloc, hub))?);
    Ok(())
}

/// Stream 1 ends; then stream 2 begins, with the header `abc`.
const END_AND_BEGIN: &[u8] = b"\x03\x04\0\0\0\x01\0\0\0\
    \x01\x2f\0\0\0\0\x01\0\x02\0\0\0\x01\0\x03\0\0\0abc\0\0\
    \0\0\0\0\0\0\0\0\0\0\0\0\0\0\0\0\0\0\0\0\0\0\0\0\0\0\0\0\0";

/// The feed of the end alone.
fn end_alone() -> &'static [u8] {
    END_AND_BEGIN.split_at(9).0
}

/// A step that was answered so.
fn kept(count: u64, end: u64) -> Step {
    Step::Done(Reply::Kept(Kept { count, end }))
}

/// A feed that comes from memory, and whose replies go there.
type Feed<'a> = LiveFeed<&'a [u8], Vec<u8>>;

/// A feed of these bytes.
fn feed_of(alloc: Global, bytes: &[u8]) -> Feed<'_> {
    LiveFeed::new(alloc, bytes, Vec::new(alloc))
}

/// Serves a connection of which one call may fail, while a feed is recorded.
fn live<D: Disk + Drop>(
    alloc: Global,
    hub: &mut Hub<D>,
    feed: &mut Feed<'_>,
    (read, write): (u64, u64),
    response: &[u8],
) -> Ended {
    let mut reader = FakeReader::new(GET_ALL, read);
    let mut writer = FakeWriter::new(Vec::new(alloc), write);
    let ends = live_one(hub, &mut reader, &mut writer, feed);
    ended(ends, writer.written(), response)
}

/// Whether the feed goes on by a step before each piece of a response.
fn goes_on<D: Disk + Drop>(alloc: Global, hub: &mut Hub<D>, feed: &mut Feed<'_>) -> bool {
    let cut = Some((Ok(Served::Cut), 0));
    // No head comes, and no step is taken.
    let is_left = live(alloc, hub, feed, (3, 0), OF_TWO) == cut
        && hub.end() == 64
        && is_gone(hub, 0);
    // The piece can't be written, and a step was taken.
    let is_cut = is_left && live(alloc, hub, feed, (0, 1), OF_TWO) == cut && hub.end() == 91;
    is_cut
        && feed.ended() == None
        && is_gone(hub, 1)
        && live(alloc, hub, feed, (0, 0), OF_THREE) == Some((Ok(Served::Whole), 202))
        && feed.ended() == Some(Ok(Step::End))
        && is_gone(hub, 2)
}

#[test]
fn a_feed_goes_on_by_a_step_before_each_piece(rt: HostRuntime) -> Result<(), Fail> {
    let alloc = rt.alloc();
    assert!(rt;
        holds(hub_of(alloc, TWO, 1), |hub| {
            goes_on(alloc, hub, &mut feed_of(alloc, end_alone()))
        })?
    );
    Ok(())
}

/// Whether the next step of the feed comes to this.
fn is_next<D: Disk + Drop>(hub: &mut Hub<D>, feed: &mut Feed<'_>, want: Step) -> bool {
    feed.step(hub) == Ok(want)
}

/// Whether the third command is kept, and the feed's end comes and stays.
fn ends_and_stays<D: Disk + Drop>(hub: &mut Hub<D>, feed: &mut Feed<'_>) -> bool {
    is_next(hub, feed, kept(3, 91))
        && is_next(hub, feed, Step::End)
        && is_next(hub, feed, Step::End)
}

#[test]
fn a_step_is_answered_and_the_end_stays(rt: HostRuntime) -> Result<(), Fail> {
    let alloc = rt.alloc();
    assert!(rt;
        holds(hub_after_two(alloc, 1), |hub| {
            ends_and_stays(hub, &mut feed_of(alloc, end_alone()))
        })?
    );
    Ok(())
}

/// The opening makes five calls of the disk, and the end of the stream four, the last of which is a sync.
const LAST_SYNC: u64 = 9;

/// Whether a fault of the disk is told, the end of the stream is found, and the next command is the first kept.
fn counts_again<D: Disk + Drop>(hub: &mut Hub<D>, feed: &mut Feed<'_>) -> bool {
    is_next(hub, feed, Step::Done(Reply::Refused(Refusal::Disk)))
        && hub.end() == 91
        && is_next(hub, feed, kept(1, 122))
}

#[test]
fn counts_begin_again_after_a_fault_of_the_disk(rt: HostRuntime) -> Result<(), Fail> {
    let alloc = rt.alloc();
    assert!(rt;
        holds_failing(hub_failing(alloc, LAST_SYNC, 0), |hub| {
            counts_again(hub, &mut feed_of(alloc, END_AND_BEGIN))
        })?
    );
    Ok(())
}

/// Whether a feed is told twice that the hub has no file, and a session that comes then is closed.
fn is_lost<D: Disk + Drop>(alloc: Global, hub: &mut Hub<D>, feed: &mut Feed<'_>) -> bool {
    let lost = Step::Lost(OpenFault::Disk);
    is_next(hub, feed, lost)
        && is_next(hub, feed, lost)
        && live(alloc, hub, feed, (0, 0), b"") == Some((Err(HubFault::NoFile), 0))
        && is_gone(hub, 0)
}

#[test]
fn a_hub_without_a_file_is_told_and_its_sessions_are_closed(rt: HostRuntime) -> Result<(), Fail> {
    let alloc = rt.alloc();
    // The reopening begins with a sync.
    assert!(rt;
        holds_failing(hub_failing(alloc, LAST_SYNC, LAST_SYNC + 1), |hub| {
            is_lost(alloc, hub, &mut feed_of(alloc, END_AND_BEGIN))
        })?
    );
    Ok(())
}

/// Whether the third command of a hub waits until a flush, and a session that comes later gets it.
fn waits_as_the_third<D: Disk + Drop>(hub: &mut Hub<D>) -> bool {
    hub.command(&Command::End(1)) == Ok(Outcome::Held(3))
        && hub.flush() == Ok(Kept { count: 3, end: 91 })
        && is_asked(hub, OF_THREE)
}

/// Whether a new session gets this response.
fn is_asked<D: Disk + Drop>(hub: &mut Hub<D>, response: &[u8]) -> bool {
    match ask(hub) {
        Some(id) => gives(hub, id, 300, response),
        None => false,
    }
}

#[test]
fn the_third_command_of_an_opening_waits_in_a_group_of_eight(rt: HostRuntime) -> Result<(), Fail> {
    assert!(rt; holds(hub_after_two(rt.alloc(), 8), waits_as_the_third)?);
    Ok(())
}

/// Whether a session goes on with its response after the third command, which a later session gets.
fn keeps_the_third<D: Disk + Drop>(hub: &mut Hub<D>) -> bool {
    let (one, rest) = OF_TWO.split_at(1);
    let Some(first) = ask(hub) else {
        return false;
    };
    gives(hub, first, 1, one)
        && hub.command(&Command::End(1)) == Ok(Outcome::Kept(Kept { count: 3, end: 91 }))
        && gives(hub, first, 300, rest)
        && is_asked(hub, OF_THREE)
}

#[test]
fn the_third_command_of_an_opening_is_the_third_kept(rt: HostRuntime) -> Result<(), Fail> {
    assert!(rt; holds(hub_after_two(rt.alloc(), 1), keeps_the_third)?);
    Ok(())
}
