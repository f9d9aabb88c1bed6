//! Feeds that are run while one request for memory is refused: `rt try --test --fail-alloc N` refuses the `N`th. A
//! run that meets the refusal leaves what stood before it, and the next run has the result that the feed has with
//! memory.
use crate::running::stand;
use feed_codec::{FeedFault, RunFault};
use feed_mux::mux;
use ogg_page::Memory;
use std::alloc::Global;
use std::process::Abort;
use std::test::Fail;
use test_feeds::{BEGIN_DESCRIBED, BEGIN_THREE, BEGIN_TWO, PUT_FOUR, ZEROS, bytes_of};

/// What a run leaves: whether the feed was read to its end, the reply lines, and the length of the pages.
type Left = (bool, &'static str, usize);

/// A feed, and the result of its run.
struct Row {
    /// Its bytes, in parts.
    feed: &'static [&'static [u8]],
    /// The result with memory.
    whole: Left,
    /// The results if memory is refused once.
    refused: &'static [Left],
    /// Bytes of the pages, each with the offset at which they stand.
    found: &'static [(usize, &'static [u8])],
}

/// What a refusal leaves of a feed of one command.
const REFUSED_ONE: [Left; 2] = [(true, "refused 20 Memory\n", 0), (false, "", 0)];

const ROWS: [Row; 4] = [
    Row {
        feed: &ZEROS,
        whole: (true, "kept 1 31\nkept 2 1084\n", 1084),
        refused: &[
            (true, "refused 20 Memory\nrefused 3 NoLink\n", 0),
            (true, "kept 1 31\nrefused 20 Memory\n", 31),
            (false, "", 0),
            (false, "kept 1 31\n", 31),
        ],
        found: &[(57, &[7, 0, 254, 255, 0, 255, 255, 0])],
    },
    Row {
        feed: &[BEGIN_DESCRIBED],
        whole: (true, "kept 1 259\n", 259),
        refused: &REFUSED_ONE,
        found: &[
            (27, b"\x40fishead\0\x03\0\0\0"),
            (203, b"Content-Type: audio/vorbis\r\n"),
            (257, b"\x01\0"),
        ],
    },
    Row {
        feed: &[BEGIN_THREE],
        whole: (true, "kept 1 63\n", 63),
        refused: &REFUSED_ONE,
        found: &[(57, &[2, 2, 1, b'd', b'e', b'f'])],
    },
    Row {
        feed: &[BEGIN_TWO, PUT_FOUR],
        whole: (true, "kept 1 62\nkept 2 151\n", 151),
        refused: &[
            (true, "refused 20 Memory\nrefused 3 NoLink\n", 0),
            (true, "kept 1 62\nrefused 20 Memory\n", 62),
            (false, "", 0),
            (false, "kept 1 62\n", 62),
        ],
        found: &[(88, &[2, 1, 1, b'a', b'b'])],
    },
];

/// Room for what a run writes. It is asked for once more if it is refused.
fn room(alloc: Global) -> Result<Vec<u8>, Memory> {
    let mut out = Vec::new(alloc);
    if out.reserve(2048).is_err() {
        out.reserve(2048)?;
    }
    Ok(out)
}

/// Runs the feed, and returns the length of the pages.
fn run(
    alloc: Global,
    feed: &[u8],
    pages: &mut Vec<u8>,
    replies: &mut Vec<u8>,
) -> Result<u64, RunFault> {
    let mut feed = feed;
    match mux(alloc, &mut feed, pages, replies) {
        Ok(tally) => Ok(tally.end),
        Err(fault) => Err(fault),
    }
}

/// Whether a run has left this.
fn has_left(run: &Result<u64, RunFault>, replies: &[u8], pages: &[u8], left: &Left) -> bool {
    let (is_read, lines, length) = *left;
    let ended = match run {
        Ok(end) => is_read && *end == length as u64,
        Err(fault) => !is_read && *fault == RunFault::Feed(FeedFault::Memory),
    };
    ended && replies == lines.as_bytes() && pages.len() == length
}

#[test]
fn a_run_that_was_refused_memory_is_made_anew(rt: HostRuntime) -> Result<(), Fail> {
    let mut pages = room(rt.alloc())?;
    let mut replies = room(rt.alloc())?;
    let mut first = room(rt.alloc())?;
    for row in &ROWS {
        let feed = bytes_of(rt.alloc(), row.feed)?;
        let mut ran = run(rt.alloc(), &feed, &mut pages, &mut replies);
        if !has_left(&ran, &replies, &pages, &row.whole) {
            assert!(rt;
                row.refused
                    .iter()
                    .any(|left| has_left(&ran, &replies, &pages, left))
            );
            first.extend_from_slice(&pages)?;
            pages.clear();
            replies.clear();
            ran = run(rt.alloc(), &feed, &mut pages, &mut replies);
            assert!(rt; pages.starts_with(&first));
            first.clear();
        }
        assert!(rt; has_left(&ran, &replies, &pages, &row.whole));
        assert!(rt; stand(&pages, row.found));
        pages.clear();
        replies.clear();
    }
    Ok(())
}
