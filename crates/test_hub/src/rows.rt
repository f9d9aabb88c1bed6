//! Requests for parts of a link, and a feed that is recorded while the file is sent: rows that cross a hub.
//!
//! The link has pages of 31, 33 and 27 bytes.
use crate::fakes::{FakeReader, FakeWriter};
use crate::tools::{GET_ALL, OF_THREE, OF_TWO, TWO, holds, hub_of};
use disk_model::Disk;
use ogg_serve::{Hub, LiveFeed, Progress, Served, live_one};
use std::alloc::Global;
use std::test::Fail;

/// The pages of the header `abc`, of the packet `hello` at position 5, and of the stream's end.
const THREE: &[u8] = b"OggS\0\x02\0\0\0\0\0\0\0\0\x01\0\0\0\0\0\0\0\x92\xdd\xf6\x15\x01\x03abc\
    OggS\0\0\x05\0\0\0\0\0\0\0\x01\0\0\0\x01\0\0\0\xbb\xfev\xea\x01\x05hello\
    OggS\0\x04\x05\0\0\0\0\0\0\0\x01\0\0\0\x02\0\0\0\xdb\x9d\x91\x8b\0";

/// A request for the link, the head that it gets, and which of the link's bytes follow: from the first number up to
/// the second.
const RANGES: [(&[u8], &[u8], usize, usize); 6] = [
    (
        b"GET /link/0 HTTP/1.1\r\nHost: a\r\nRange: bytes=0-30\r\n\r\n",
        b"HTTP/1.1 206 Partial Content\r\nContent-Type: application/ogg\r\nContent-Length: 31\r\n\
        Content-Range: bytes 0-30/91\r\nAccept-Ranges: bytes\r\nConnection: close\r\n\r\n",
        0,
        31,
    ),
    (
        b"GET /link/0 HTTP/1.1\r\nHost: a\r\nRange: bytes=-27\r\n\r\n",
        b"HTTP/1.1 206 Partial Content\r\nContent-Type: application/ogg\r\nContent-Length: 27\r\n\
        Content-Range: bytes 64-90/91\r\nAccept-Ranges: bytes\r\nConnection: close\r\n\r\n",
        64,
        91,
    ),
    (
        b"GET /link/0 HTTP/1.1\r\nHost: a\r\nRange: bytes=91-\r\n\r\n",
        b"HTTP/1.1 416 Range Not Satisfiable\r\nContent-Length: 0\r\nContent-Range: bytes */91\r\n\
        Accept-Ranges: bytes\r\nConnection: close\r\n\r\n",
        0,
        0,
    ),
    (
        b"GET /link/0 HTTP/1.1\r\nHost: a\r\nRange: bytes=5-4\r\n\r\n",
        b"HTTP/1.1 200 OK\r\nContent-Type: application/ogg\r\nContent-Length: 91\r\n\
        Accept-Ranges: bytes\r\nConnection: close\r\n\r\n",
        0,
        91,
    ),
    (
        b"GET /link/0 HTTP/1.1\r\nHost: a\r\nRange: bytes=0-0,2-2\r\n\r\n",
        b"HTTP/1.1 200 OK\r\nContent-Type: application/ogg\r\nContent-Length: 91\r\n\
        Accept-Ranges: bytes\r\nConnection: close\r\n\r\n",
        0,
        91,
    ),
    (
        b"HEAD /link/0 HTTP/1.1\r\nHost: a\r\nRange: bytes=0-30\r\n\r\n",
        b"HTTP/1.1 200 OK\r\nContent-Type: application/ogg\r\nContent-Length: 91\r\n\
        Accept-Ranges: bytes\r\nConnection: close\r\n\r\n",
        0,
        0,
    ),
];

/// Whether a new session gets exactly this head and these bytes for its request.
fn is_answered<D: Disk + Drop>(hub: &mut Hub<D>, request: &[u8], head: &[u8], part: &[u8]) -> bool {
    let Ok(id) = hub.connect() else {
        return false;
    };
    if hub.receive(id, request) != Ok(Progress::Ready) {
        return false;
    }
    let mut buffer = [0; 300];
    match hub.pull(id, &mut buffer) {
        Ok(pulled) => {
            let (given, _) = buffer.split_at(pulled.count);
            let (start, rest) = given.split_at(head.len().min(given.len()));
            pulled.done && *start == *head && *rest == *part
        }
        Err(_) => false,
    }
}

/// Whether each range is answered as it says.
fn are_answered<D: Disk + Drop>(hub: &mut Hub<D>) -> bool {
    for &(request, head, from, to) in &RANGES {
        let part = THREE.get(from..to).unwrap_or(&[]);
        if !is_answered(hub, request, head, part) {
            return false;
        }
    }
    true
}

#[test]
fn parts_of_a_link_are_given_as_their_ranges_say(rt: HostRuntime) -> Result<(), Fail> {
    assert!(rt; holds(hub_of(rt.alloc(), THREE, 1), are_answered)?);
    Ok(())
}

/// The feed that ends stream 1.
const END: &[u8] = b"\x03\x04\0\0\0\x01\0\0\0";

/// Serves a connection that asks for the whole file, and returns how many bytes of this response it got, if no others.
fn got<D: Disk + Drop>(
    alloc: Global,
    hub: &mut Hub<D>,
    feed: &mut LiveFeed<&[u8], FakeWriter>,
    response: &[u8],
) -> Option<usize> {
    let mut reader = FakeReader::new(GET_ALL, 0);
    let mut writer = FakeWriter::new(Vec::new(alloc), 0);
    match live_one(hub, &mut reader, &mut writer, feed) {
        Ok(Served::Whole) if response.starts_with(writer.written()) => Some(writer.written().len()),
        _ => None,
    }
}

/// Whether the end is recorded while the file before it is sent, and is sent to who comes next.
fn is_recorded<D: Disk + Drop>(
    alloc: Global,
    hub: &mut Hub<D>,
    feed: &mut LiveFeed<&[u8], FakeWriter>,
) -> bool {
    got(alloc, hub, feed, OF_TWO) == Some(175)
        && hub.end() == 91
        && got(alloc, hub, feed, OF_THREE) == Some(202)
}

#[test]
fn the_end_is_recorded_while_the_file_before_it_is_sent(rt: HostRuntime) -> Result<(), Fail> {
    let alloc = rt.alloc();
    assert!(rt;
        holds(hub_of(alloc, TWO, 1), |hub| {
            let mut feed = LiveFeed::new(alloc, END, FakeWriter::new(Vec::new(alloc), 0));
            is_recorded(alloc, hub, &mut feed)
        })?
    );
    Ok(())
}
