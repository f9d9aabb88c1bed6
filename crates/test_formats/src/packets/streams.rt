//! The parts of a stream, through a window.
use super::*;
use crate::files::{Failing, over};
use ogg_page::{CONTINUED, FIRST, LAST, PageBuffer, PageSource, Whole};

/// A part: how many bytes, first, last, and the position.
pub(crate) type Want = (usize, bool, bool, Option<u64>);

/// The next part.
pub(crate) fn next_of<S: PageSource>(stream: &mut Stream<S>) -> Result<Option<Want>, StreamFault> {
    match stream.next_part()? {
        Some(part) => Ok(Some((part.bytes.len(), part.first, part.last, part.position))),
        None => Ok(None),
    }
}

/// Streams 1 and 2: `abc` each; the first 65,025 bytes of a packet of 1; `x` in 2; the other 4,975 bytes; the end of
/// 2.
const TWO_STREAMS: [PageSpec; 6] = [
    (FIRST, 0, 1, 0, Held::Short(b"abc")),
    (FIRST, 0, 2, 0, Held::Short(b"abc")),
    (0, u64::MAX, 1, 1, Held::Front),
    (0, 1, 2, 1, Held::Short(b"x")),
    (5, 9, 1, 2, Held::Rest),
    (LAST, 9, 2, 2, Held::Nothing),
];

/// A packet whose last part has no byte.
const NO_BYTE: [PageSpec; 3] = [
    (FIRST, 0, 1, 0, Held::Short(b"abc")),
    (0, u64::MAX, 1, 1, Held::Front),
    (CONTINUED, 5, 1, 2, Held::Empty),
];

/// Pages, and the parts of stream 1 in them.
const PARTS: [(&[PageSpec], [Want; 3]); 2] = [
    (
        &TWO_STREAMS,
        [
            (3, true, true, Some(0)),
            (65_025, true, false, None),
            (4_975, false, true, Some(9)),
        ],
    ),
    (
        &NO_BYTE,
        [
            (3, true, true, Some(0)),
            (65_025, true, false, None),
            (0, false, true, Some(5)),
        ],
    ),
];

/// Whether the stream has these parts, and its window has lent its last page then.
fn has_parts(mut stream: Stream<Whole<'_>>, parts: &[Want]) -> bool {
    for want in parts {
        if next_of(&mut stream) != Ok(Some(*want)) {
            return false;
        }
    }
    let ends = (next_of(&mut stream), next_of(&mut stream));
    ends == (Ok(None), Ok(None)) && matches!(stream.into_window().next(), Ok(None))
}

#[test]
fn a_packet_comes_in_a_part_for_each_page(rt: HostRuntime) -> Result<(), Fail> {
    for (pages, parts) in &PARTS {
        let bytes = file_of(rt.alloc(), pages, None)?;
        let window = over(Whole::of(&bytes), PageBuffer::new(rt.alloc())?, 0, u64::MAX);
        assert!(rt; has_parts(Stream::of(window, 1), parts));
    }
    Ok(())
}

/// Whether the next part is a whole packet of these bytes, with this position.
fn is_whole_next<S: PageSource>(
    stream: &mut Stream<S>,
    text: &[u8],
    position: Option<u64>,
) -> Result<bool, StreamFault> {
    match stream.next_part()? {
        Some(part) => {
            Ok(part.bytes == text && part.first && part.last && part.position == position)
        }
        None => Ok(false),
    }
}

/// Whether the stream's parts are the row's packets, whole, and then comes twice its fault or the end.
fn are_packets<S: PageSource>(stream: &mut Stream<S>, row: &Row) -> Result<bool, StreamFault> {
    for (text, position) in row.packets {
        if !is_whole_next(stream, text, *position)? {
            return Ok(false);
        }
    }
    let end = match row.fault {
        Some(fault) => Err(StreamFault::View(fault)),
        None => Ok(None),
    };
    Ok((next_of(stream), next_of(stream)) == (end, end))
}

#[test]
fn parts_are_those_of_the_packets(rt: HostRuntime) -> Result<(), Fail> {
    let mut buffer = PageBuffer::new(rt.alloc())?;
    for row in &ROWS {
        let bytes = joined(rt.alloc(), row.pages)?;
        let mut stream = Stream::of(over(Whole::of(&bytes), buffer, 0, u64::MAX), 1);
        assert!(rt; are_packets(&mut stream, row)?);
        (_, buffer) = stream.into_window().into_parts();
    }
    Ok(())
}

#[test]
fn a_read_that_fails_ends_the_stream(rt: HostRuntime) -> Result<(), Fail> {
    let window = over(
        Failing::new(&END_PAGE, 1),
        PageBuffer::new(rt.alloc())?,
        0,
        27,
    );
    let mut stream = Stream::of(window, 1);
    let faults = (next_of(&mut stream), next_of(&mut stream));
    assert!(rt; faults == (Err(StreamFault::Source), Err(StreamFault::Source)));
    // The window keeps its fault, so a stream made of it has that fault from the beginning.
    let mut again = Stream::of(stream.into_window(), 1);
    assert!(rt; next_of(&mut again) == Err(StreamFault::Source));
    let (source, _) = again.into_window().into_parts();
    assert!(rt; (source.reads, source.failures) == (1, 1));
    Ok(())
}
