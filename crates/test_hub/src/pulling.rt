//! Responses that are pulled out of a small file, with sizes counted by hand from RFC 3533, section 6.
use link_index::Index;
use ogg_http::{Request, Verb};
use ogg_page::{FIRST, LAST, Memory, PageBuffer, PageHead, Whole, Window, write_page};
use serve_sending::Sending;
use std::alloc::Global;
use std::test::Fail;

/// A page: its flags, position, serial and number, and the packet that it holds, if any.
type PageSpec = (u8, u64, u32, u32, Option<&'static [u8]>);

/// Two streams in a link. The pages have 31, 31, 29, 30 and 27 bytes.
const PAGES: [PageSpec; 5] = [
    (FIRST, 0, 1, 0, Some(b"abc")),
    (FIRST, 0, 2, 0, Some(b"abc")),
    (0, 9, 1, 1, Some(b"x")),
    (0, 9, 2, 1, Some(b"yz")),
    (LAST, 9, 1, 2, None),
];

/// The request of a GET, the text that it gets, and the bytes that follow: of all pages or of stream 1, from the
/// first number up to the second.
type Case = (
    &'static [u8],
    Option<&'static [u8]>,
    &'static str,
    bool,
    usize,
    usize,
);

const CASES: [Case; 6] = [
    (
        b"/",
        None,
        "HTTP/1.1 200 OK\r\nContent-Type: text/plain\r\nContent-Length: 68\r\nConnection: close\r\n\r\n\
         committed 148\nlink 0 0 148 2\nstream 1 87 3 ended\nstream 2 61 2 open\n",
        false,
        0,
        0,
    ),
    (
        b"/all",
        None,
        "HTTP/1.1 200 OK\r\nContent-Type: application/ogg\r\nContent-Length: 148\r\nAccept-Ranges: bytes\r\n\
         Connection: close\r\n\r\n",
        false,
        0,
        148,
    ),
    (
        b"/link/0",
        Some(b"bytes=10-40"),
        "HTTP/1.1 206 Partial Content\r\nContent-Type: application/ogg\r\nContent-Length: 31\r\n\
         Content-Range: bytes 10-40/148\r\nAccept-Ranges: bytes\r\nConnection: close\r\n\r\n",
        false,
        10,
        41,
    ),
    (
        b"/link/0/1",
        Some(b"bytes=30-60"),
        "HTTP/1.1 206 Partial Content\r\nContent-Type: application/ogg\r\nContent-Length: 31\r\n\
         Content-Range: bytes 30-60/87\r\nAccept-Ranges: bytes\r\nConnection: close\r\n\r\n",
        true,
        30,
        61,
    ),
    (
        b"/link/0/1",
        Some(b"bytes=-28"),
        "HTTP/1.1 206 Partial Content\r\nContent-Type: application/ogg\r\nContent-Length: 28\r\n\
         Content-Range: bytes 59-86/87\r\nAccept-Ranges: bytes\r\nConnection: close\r\n\r\n",
        true,
        59,
        87,
    ),
    (
        b"/link/0/3",
        None,
        "HTTP/1.1 404 Not Found\r\nContent-Length: 0\r\nConnection: close\r\n\r\n",
        false,
        0,
        0,
    ),
];

/// Appends a page that holds the packet, of at most 254 bytes.
fn append_page(page: &PageSpec, bytes: &mut Vec<u8>) -> Result<(), Memory> {
    let head = PageHead {
        flags: page.0,
        position: page.1,
        serial: page.2,
        sequence: page.3,
    };
    match page.4 {
        Some(packet) => match u8::try_from(packet.len()) {
            Ok(len) => write_page(&head, &[len], packet, bytes),
            Err(_) => Err(Memory),
        },
        None => write_page(&head, &[], b"", bytes),
    }
}

/// The bytes of all pages, or of those of stream 1.
fn file_of(alloc: Global, one: bool) -> Result<Vec<u8>, Memory> {
    let mut bytes = Vec::new(alloc);
    for page in &PAGES {
        if !one || page.2 == 1 {
            append_page(page, &mut bytes)?;
        }
    }
    Ok(bytes)
}

/// The text and this part of the bytes.
fn joined(
    alloc: Global,
    text: &str,
    bytes: &[u8],
    start: usize,
    end: usize,
) -> Result<Vec<u8>, Memory> {
    let mut all = Vec::from_slice(alloc, text.as_bytes())?;
    let (front, _) = bytes.split_at(end.min(bytes.len()));
    let (_, part) = front.split_at(start.min(front.len()));
    all.extend_from_slice(part)?;
    Ok(all)
}

/// All bytes that pulls of this size put into their buffers, until one says that none is left.
fn pull_all(
    alloc: Global,
    sending: &mut Sending,
    bytes: &[u8],
    size: usize,
) -> Result<Vec<u8>, Fail> {
    let mut window = Window::new(Whole::of(bytes), PageBuffer::new(alloc)?, 0, 0);
    let mut buffer = vec![in alloc; 0u8; size]?;
    let mut all = Vec::new(alloc);
    for _ in 0..1000 {
        let pulled = sending.pull(&mut window, buffer.as_mut_slice())?;
        let (front, _) = buffer.as_slice().split_at(pulled.count.min(buffer.len()));
        all.extend_from_slice(front)?;
        if pulled.done {
            return Ok(all);
        }
    }
    Ok(all)
}

/// Whether pulls of this size give the bytes that are wanted.
fn is_pulled(
    alloc: Global,
    request: Request,
    index: &Index,
    (bytes, want): (&[u8], &[u8]),
    size: usize,
) -> Result<bool, Fail> {
    let mut sending = Sending::of(alloc, Some(request), index)?;
    let got = pull_all(alloc, &mut sending, bytes, size)?;
    Ok(got.as_slice() == want)
}

/// Whether pulls of one byte, of some, and of all give the bytes that are wanted.
fn is_pulled_by_each(
    alloc: Global,
    request: Request,
    index: &Index,
    files: (&[u8], &[u8]),
) -> Result<bool, Fail> {
    Ok(
        is_pulled(alloc, request, index, files, 1)?
            && is_pulled(alloc, request, index, files, 7)?
            && is_pulled(alloc, request, index, files, 65_536)?,
    )
}

/// Whether the case's response comes by buffers of each size.
fn is_given(
    alloc: Global,
    index: &Index,
    (bytes, own): (&[u8], &[u8]),
    &(target, range, text, one, start, end): &Case,
) -> Result<bool, Fail> {
    let request = Request {
        verb: Verb::Get,
        target,
        http11: true,
        hosts: 1,
        range,
        used: 0,
    };
    let content = if one { own } else { bytes };
    let want = joined(alloc, text, content, start, end)?;
    is_pulled_by_each(alloc, request, index, (bytes, &want))
}

/// Whether each case's response comes.
fn are_given(alloc: Global, index: &Index, files: (&[u8], &[u8])) -> Result<bool, Fail> {
    for case in &CASES {
        if !is_given(alloc, index, files, case)? {
            return Ok(false);
        }
    }
    Ok(true)
}

/// The same of the index of these bytes.
fn are_given_of(alloc: Global, bytes: &[u8], own: &[u8]) -> Result<bool, Fail> {
    let index = Index::scan(alloc, bytes)?;
    are_given(alloc, &index, (bytes, own))
}

#[test]
fn buffers_of_each_size_give_the_response(rt: HostRuntime) -> Result<(), Fail> {
    let bytes = file_of(rt.alloc(), false)?;
    let own = file_of(rt.alloc(), true)?;
    assert!(rt; are_given_of(rt.alloc(), &bytes, &own)?);
    Ok(())
}
