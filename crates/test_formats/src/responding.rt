//! Values from RFC 9110 and by hand, and a check that a call succeeds if there is memory.
use crate::files::joined;
use ogg_http::{
    Answer, HeadRead, Memory, Ranged, Request, Resource, Verb, range_of, read_head, response_head,
};
use std::alloc::Global;
use std::test::Fail;

/// A whole head, and what it says.
struct Head {
    text: &'static [u8],
    verb: Verb,
    target: &'static [u8],
    http11: bool,
    hosts: u32,
    range: Option<&'static [u8]>,
}

const HEADS: [Head; 10] = [
    Head {
        text: b"GET / HTTP/1.1\r\nHost: a\r\n\r\n",
        verb: Verb::Get,
        target: b"/",
        http11: true,
        hosts: 1,
        range: None,
    },
    Head {
        text: b"GET / HTTP/1.1\r\n\r\n",
        verb: Verb::Get,
        target: b"/",
        http11: true,
        hosts: 0,
        range: None,
    },
    Head {
        text: b"GET / HTTP/1.0\n\n",
        verb: Verb::Get,
        target: b"/",
        http11: false,
        hosts: 0,
        range: None,
    },
    Head {
        text: b"get / HTTP/1.1\r\nHost: a\r\nhOST: b\r\n\r\n",
        verb: Verb::Other,
        target: b"/",
        http11: true,
        hosts: 2,
        range: None,
    },
    Head {
        text: b"POST / HTTP/1.1\r\nHost: a\r\n\r\n",
        verb: Verb::Other,
        target: b"/",
        http11: true,
        hosts: 1,
        range: None,
    },
    Head {
        text: b"GET /link/0 HTTP/1.1\r\nHost: a\r\nRange: bytes=0-30\r\n\r\n",
        verb: Verb::Get,
        target: b"/link/0",
        http11: true,
        hosts: 1,
        range: Some(b"bytes=0-30"),
    },
    Head {
        text: b"HEAD /link/0 HTTP/1.1\r\nHost: a\r\nRange: bytes=0-30\r\n\r\n",
        verb: Verb::Head,
        target: b"/link/0",
        http11: true,
        hosts: 1,
        range: Some(b"bytes=0-30"),
    },
    Head {
        text: b"\r\n\nGET http://a/all HTTP/1.1\r\nhost:a\r\nrANGE: \tbytes=-27\t \r\nRanges: b\r\n\r\n",
        verb: Verb::Get,
        target: b"http://a/all",
        http11: true,
        hosts: 1,
        range: Some(b"bytes=-27"),
    },
    Head {
        text: b"GET /all HTTP/1.1\r\nRange: bytes=0-\r\nHost: a\r\nRange: bytes=0-\r\n\r\n",
        verb: Verb::Get,
        target: b"/all",
        http11: true,
        hosts: 1,
        range: None,
    },
    Head {
        text: b"GET /all HTTP/1.1\r\nIF-Range: \"x\"\r\nHost: a\r\nRange: bytes=0-\r\n\r\n",
        verb: Verb::Get,
        target: b"/all",
        http11: true,
        hosts: 1,
        range: None,
    },
];

/// What the head is read as.
fn wanted(head: &Head) -> HeadRead<'static> {
    HeadRead::Whole(Request {
        verb: head.verb,
        target: head.target,
        http11: head.http11,
        hosts: head.hosts,
        range: head.range,
        used: head.text.len(),
    })
}

/// Whether more is awaited after each front of the head that isn't all of it.
fn fronts_are_partial(text: &[u8]) -> bool {
    for end in 0..text.len() {
        if read_head(text.get(..end).unwrap_or(text)) != HeadRead::Partial {
            return false;
        }
    }
    true
}

/// Whether the head is read, alone and before another one.
fn is_read(alloc: Global, head: &Head) -> Result<bool, Memory> {
    let more = joined(alloc, &[head.text, b"GET /more HTTP/1.1\r\n\r\n"])?;
    Ok(read_head(head.text) == wanted(head) && read_head(&more) == wanted(head))
}

#[test]
fn reads_whole_heads_and_awaits_their_prefixes(rt: HostRuntime) -> Result<(), Fail> {
    for head in &HEADS {
        assert!(rt; fronts_are_partial(head.text));
        assert!(rt; is_read(rt.alloc(), head)?);
    }
    Ok(())
}

/// Bytes that no head begins with.
const HOPELESS: [&[u8]; 8] = [
    b"\x00",
    b"GET / HTTP/2.0\r\n\r\n",
    b"GET  / HTTP/1.1\r\n\r\n",
    b"GET / HTTP/1.1\r\nHost a\r\n\r\n",
    b"GET / HTTP/1.1\r\nHost : a\r\n\r\n",
    b"GET / HTTP/1.1\r\n Host: a\r\n\r\n",
    &[b'a'; 8192],
    &[b'a'; 8193],
];

#[test]
fn finds_hopeless_heads_bad(rt: HostRuntime) {
    for &text in &HOPELESS {
        assert!(rt; read_head(text) == HeadRead::Bad);
    }
    assert!(rt; read_head(&[b'a'; 8191]) == HeadRead::Partial);
}

/// A piece of a head that stands in it several times: what comes before and after it, how often it stands there, the
/// length of the head, and how many `Host` fields it has, or none if it is too long or has too many fields.
type Repeated = (&'static [&'static [u8]; 3], u32, usize, Option<u32>);

/// A target of many letters, and `Host` many times.
const LONG_TARGET: [&[u8]; 3] = [b"GET ", b"/", b" HTTP/1.1\r\n\r\n"];

const MANY_HOSTS: [&[u8]; 3] = [b"GET / HTTP/1.1\r\n", b"Host: a\r\n", b"\r\n"];

/// A head has 8,192 bytes and 64 fields at most.
const LIMITS: [Repeated; 7] = [
    (&LONG_TARGET, 8_174, 8_191, Some(0)),
    (&LONG_TARGET, 8_175, 8_192, Some(0)),
    (&LONG_TARGET, 8_176, 8_193, None),
    (&MANY_HOSTS, 63, 585, Some(63)),
    (&MANY_HOSTS, 64, 594, Some(64)),
    (&MANY_HOSTS, 65, 603, None),
    (&MANY_HOSTS, 66, 612, None),
];

/// The head with its middle piece repeated.
fn repeated(alloc: Global, pieces: &[&[u8]; 3], count: u32) -> Result<Vec<u8>, Memory> {
    let [front, middle, rest] = pieces;
    let mut head = Vec::new(alloc);
    head.extend_from_slice(front)?;
    for _ in 0..count {
        head.extend_from_slice(middle)?;
    }
    head.extend_from_slice(rest)?;
    Ok(head)
}

/// The `Host` fields and the length of a whole head.
fn hosts_of(head: &[u8]) -> Result<(u32, usize), bool> {
    match read_head(head) {
        HeadRead::Whole(request) => Ok((request.hosts, request.used)),
        read => Err(read == HeadRead::Bad),
    }
}

#[test]
fn reads_8192_bytes_and_64_fields_and_no_more(rt: HostRuntime) -> Result<(), Fail> {
    for &(pieces, count, len, hosts) in &LIMITS {
        let head = repeated(rt.alloc(), pieces, count)?;
        assert!(rt; head.len() == len);
        let want = match hosts {
            Some(hosts) => Ok((hosts, len)),
            None => Err(true),
        };
        assert!(rt; hosts_of(&head) == want);
    }
    Ok(())
}

/// Targets, and the resources that they name.
const TARGETS: [(&[u8], Option<Resource>); 38] = [
    (b"/", Some(Resource::List)),
    (b"/all", Some(Resource::All)),
    (b"/link/0", Some(Resource::Link(0))),
    (b"/link/4294967295", Some(Resource::Link(4_294_967_295))),
    (b"/link/0/0", Some(Resource::Stream(0, 0))),
    (
        b"/link/10/4294967295",
        Some(Resource::Stream(10, 4_294_967_295)),
    ),
    (b"http://a", Some(Resource::List)),
    (b"http://", Some(Resource::List)),
    (b"http://a/", Some(Resource::List)),
    (b"HTTP://a:80/link/7", Some(Resource::Link(7))),
    (b"hTTp:///all", Some(Resource::All)),
    (b"", None),
    (b"*", None),
    (b"all", None),
    (b"//", None),
    (b"/All", None),
    (b"/all/", None),
    (b"/all?", None),
    (b"/%61ll", None),
    (b"/link", None),
    (b"/link/", None),
    (b"/link/00", None),
    (b"/link/01", None),
    (b"/link/+1", None),
    (b"/link/-1", None),
    (b"/link/1a", None),
    (b"/link/4294967296", None),
    (b"/link/18446744073709551616", None),
    (b"/link/1/", None),
    (b"/link//1", None),
    (b"/link/1/02", None),
    (b"/link/1/4294967296", None),
    (b"/link/4294967296/1", None),
    (b"/link/1/2/", None),
    (b"/link/1/2/3", None),
    (b"https://a/all", None),
    (b"http:/all", None),
    (b" /all", None),
];

#[test]
fn names_resources(rt: HostRuntime) {
    for &(target, want) in &TARGETS {
        assert!(rt; Resource::of(target) == want);
    }
}

/// The examples of RFC 9110, section 14.1.2, for 10,000 bytes. Several ranges are ignored.
const EXAMPLES: [(&[u8], Ranged); 8] = [
    (b"bytes=0-499", Ranged::Part(0, 499)),
    (b"bytes=500-999", Ranged::Part(500, 999)),
    (b"bytes=-500", Ranged::Part(9_500, 9_999)),
    (b"bytes=9500-", Ranged::Part(9_500, 9_999)),
    (b"bytes=0-0,-1", Ranged::Whole),
    (b"bytes= 0-999, 4500-5499, -1000", Ranged::Whole),
    (b"bytes=500-600,601-999", Ranged::Whole),
    (b"bytes=500-700,601-999", Ranged::Whole),
];

/// The edges, for a representation of 91 bytes.
const EDGES: [(&[u8], Ranged); 31] = [
    (b"bytes=0-30", Ranged::Part(0, 30)),
    (b"bytes=0-0", Ranged::Part(0, 0)),
    (b"bytes=0-89", Ranged::Part(0, 89)),
    (b"bytes=0-90", Ranged::Part(0, 90)),
    (b"bytes=0-91", Ranged::Part(0, 90)),
    (b"bytes=0-18446744073709551616", Ranged::Part(0, 90)),
    (b"BYTES=90-90", Ranged::Part(90, 90)),
    (
        b"bYtEs=090-00000000000000000000000091",
        Ranged::Part(90, 90),
    ),
    (b"bytes=91-91", Ranged::Unsatisfiable),
    (
        b"bytes=18446744073709551616-18446744073709551616",
        Ranged::Unsatisfiable,
    ),
    (b"bytes=0-", Ranged::Part(0, 90)),
    (b"bytes=90-", Ranged::Part(90, 90)),
    (b"bytes=91-", Ranged::Unsatisfiable),
    (b"bytes=-0", Ranged::Unsatisfiable),
    (b"bytes=-1", Ranged::Part(90, 90)),
    (b"bytes=-27", Ranged::Part(64, 90)),
    (b"bytes=-91", Ranged::Part(0, 90)),
    (b"bytes=-92", Ranged::Part(0, 90)),
    (b"bytes=-99999999999999999999", Ranged::Part(0, 90)),
    (b"bytes=5-4", Ranged::Whole),
    (b"bytes=100-99", Ranged::Whole),
    (b"bytes=0-0,2-2", Ranged::Whole),
    (b"bytes=", Ranged::Whole),
    (b"bytes=-", Ranged::Whole),
    (b"bytes=--1", Ranged::Whole),
    (b"bytes=1", Ranged::Whole),
    (b"bytes=0-1-2", Ranged::Whole),
    (b"bytes=0-a", Ranged::Whole),
    (b"bytes =0-1", Ranged::Whole),
    (b"octets=0-1", Ranged::Whole),
    (b"", Ranged::Whole),
];

#[test]
fn takes_ranges(rt: HostRuntime) {
    for &(text, want) in &EXAMPLES {
        assert!(rt; range_of(text, 10_000) == want);
    }
    for &(text, want) in &EDGES {
        assert!(rt; range_of(text, 91) == want);
        assert!(rt; range_of(text, 0) == Ranged::Whole);
    }
    let last = u64::MAX - 1;
    assert!(rt; range_of(b"bytes=18446744073709551614-", u64::MAX) == Ranged::Part(last, last));
    assert!(rt; range_of(b"bytes=18446744073709551615-", u64::MAX) == Ranged::Unsatisfiable);
}

/// Answers one after the other, and their heads.
const WRITTEN: [(&[Answer], &[u8]); 9] = [
    (
        &[Answer::Full(91)],
        b"HTTP/1.1 200 OK\r\nContent-Type: application/ogg\r\nContent-Length: 91\r\nAccept-Ranges: bytes\r\nConnection: close\r\n\r\n",
    ),
    (
        &[Answer::Part(0, 30, 91)],
        b"HTTP/1.1 206 Partial Content\r\nContent-Type: application/ogg\r\nContent-Length: 31\r\nContent-Range: bytes 0-30/91\r\nAccept-Ranges: bytes\r\nConnection: close\r\n\r\n",
    ),
    (
        &[Answer::Part(0, u64::MAX - 1, u64::MAX)],
        b"HTTP/1.1 206 Partial Content\r\nContent-Type: application/ogg\r\nContent-Length: 18446744073709551615\r\nContent-Range: bytes 0-18446744073709551614/18446744073709551615\r\nAccept-Ranges: bytes\r\nConnection: close\r\n\r\n",
    ),
    (
        &[Answer::Unsatisfiable(91)],
        b"HTTP/1.1 416 Range Not Satisfiable\r\nContent-Length: 0\r\nContent-Range: bytes */91\r\nAccept-Ranges: bytes\r\nConnection: close\r\n\r\n",
    ),
    (
        &[Answer::Listing(0)],
        b"HTTP/1.1 200 OK\r\nContent-Type: text/plain\r\nContent-Length: 0\r\nConnection: close\r\n\r\n",
    ),
    (
        &[Answer::BadRequest],
        b"HTTP/1.1 400 Bad Request\r\nContent-Length: 0\r\nConnection: close\r\n\r\n",
    ),
    (
        &[Answer::NotFound],
        b"HTTP/1.1 404 Not Found\r\nContent-Length: 0\r\nConnection: close\r\n\r\n",
    ),
    (
        &[Answer::NotAllowed],
        b"HTTP/1.1 405 Method Not Allowed\r\nContent-Length: 0\r\nAllow: GET, HEAD\r\nConnection: close\r\n\r\n",
    ),
    // one head after another
    (
        &[Answer::NotFound, Answer::BadRequest],
        b"HTTP/1.1 404 Not Found\r\nContent-Length: 0\r\nConnection: close\r\n\r\nHTTP/1.1 400 Bad Request\r\nContent-Length: 0\r\nConnection: close\r\n\r\n",
    ),
];

/// Appends the head of an answer that fits. If memory is refused, the call is made again.
fn append(answer: Answer, out: &mut Vec<u8>) -> Result<(), Memory> {
    if let Answer::Part(first, last, len) = answer {
        if first > last || last >= len {
            return Ok(());
        }
    }
    if response_head(&answer, out).is_ok() {
        return Ok(());
    }
    response_head(&answer, out)
}

#[test]
fn writes_heads(rt: HostRuntime) -> Result<(), Fail> {
    for &(answers, want) in &WRITTEN {
        let mut out = Vec::new(rt.alloc());
        for answer in answers {
            append(*answer, &mut out)?;
        }
        assert!(rt; out.as_slice() == want);
    }
    Ok(())
}
