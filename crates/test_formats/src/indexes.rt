//! Listings and faults of small files, with sizes counted by hand from RFC 3533, section 6.
use crate::files::{Held, PageSpec, change, file_again, file_of};
use link_chain::ChainFault;
use link_index::*;
use ogg_page::{FIRST, LAST, PageFault};
use std::alloc::Global;
use std::test::Fail;

/// A link of one stream with a packet, which ends.
const ONE_STREAM: [PageSpec; 3] = [
    (FIRST, 0, 1, 0, Held::Short(b"abc")),
    (0, 0, 1, 1, Held::Short(b"hello")),
    (LAST, 0, 1, 2, Held::Nothing),
];

/// A Skeleton with packets of 64 and 80 bytes, which ends, and a stream that stays open.
const TOLD: [PageSpec; 4] = [
    (FIRST, 0, 9, 0, Held::Short(&[7; 64])),
    (FIRST, 0, 1, 0, Held::Short(b"abc")),
    (0, 0, 9, 1, Held::Short(&[8; 80])),
    (LAST, 0, 9, 2, Held::Short(b"")),
];

/// A link of two streams, and another link after it that has the serial of the first stream again.
const CHAINED: [PageSpec; 6] = [
    (FIRST, 0, 1, 0, Held::Short(b"a")),
    (FIRST, 0, 2, 0, Held::Short(b"bc")),
    (LAST, 0, 2, 1, Held::Nothing),
    (LAST, 0, 1, 1, Held::Short(b"defg")),
    (FIRST, 0, 1, 5, Held::Short(b"h")),
    (0, 0, 1, 6, Held::Short(b"ij")),
];

/// Pages, and the listing of the file that they are.
const LISTINGS: [(&[PageSpec], &str); 4] = [
    (&[], "committed 0\n"),
    (
        &ONE_STREAM,
        "committed 91\nlink 0 0 91 1\nstream 1 91 3 ended\n",
    ),
    (
        &TOLD,
        "committed 259\nlink 0 0 259 2\nstream 9 228 3 ended\nstream 1 31 1 open\n",
    ),
    (
        &CHAINED,
        "committed 177\nlink 0 0 118 2\nstream 1 61 2 ended\nstream 2 57 2 ended\nlink 1 118 59 1\nstream 1 59 2 open\n",
    ),
];

/// The index of these bytes, made once more if memory is refused.
fn scanned(alloc: Global, bytes: &[u8]) -> Result<Index, IndexFault> {
    match Index::scan(alloc, bytes) {
        Err(IndexFault::Memory) => Index::scan(alloc, bytes),
        answer => answer,
    }
}

/// Adds a chunk of a file that is small, as all are here.
fn add_small(index: &mut Index, chunk: &[u8]) -> Result<(), IndexFault> {
    if index.end() > 1_000_000 || chunk.len() > 1_000_000 {
        return Err(IndexFault::Memory);
    }
    index.add(chunk)
}

/// Where the pages of an index end, how many links they are, and its last link.
fn shown(index: &Index) -> (u64, u32, Option<LinkInfo>) {
    let links = index.links();
    (index.end(), links, index.link(links.saturating_sub(1)))
}

/// Adds a page. If memory is refused and the index is as it was, the page is added once more.
fn add_again(index: &mut Index, page: &[u8]) -> Result<(), IndexFault> {
    let before = shown(index);
    match add_small(index, page) {
        Err(IndexFault::Memory) => {
            if shown(index) != before {
                return Err(IndexFault::Memory);
            }
            add_small(index, page)
        }
        answer => answer,
    }
}

/// The listing. If memory is refused and the text is as it was, it is written once more.
fn listing_of(alloc: Global, index: &Index) -> Result<Vec<u8>, Memory> {
    let mut text = Vec::new(alloc);
    if index.write_listing(&mut text).is_err() {
        if !text.is_empty() {
            return Err(Memory);
        }
        index.write_listing(&mut text)?;
    }
    Ok(text)
}

/// The index of a file of these pages, to which they are added one by one.
fn added(alloc: Global, pages: &[PageSpec]) -> Result<Index, Fail> {
    let mut index = Index::new(alloc);
    for page in pages {
        let bytes = file_again(alloc, &[*page])?;
        add_again(&mut index, &bytes)?;
    }
    Ok(index)
}

/// `rt try --test --fail-alloc N` refuses the `N`th request for memory, here and in the next test.
#[test]
fn pages_that_are_added_one_by_one_are_listed(rt: HostRuntime) -> Result<(), Fail> {
    for &(pages, want) in &LISTINGS {
        let index = added(rt.alloc(), pages)?;
        assert!(rt; listing_of(rt.alloc(), &index)?.as_slice() == want.as_bytes());
    }
    Ok(())
}

#[test]
fn a_file_is_listed_by_its_links_and_streams(rt: HostRuntime) -> Result<(), Fail> {
    for &(pages, want) in &LISTINGS {
        let bytes = file_again(rt.alloc(), pages)?;
        let index = scanned(rt.alloc(), &bytes)?;
        assert!(rt; listing_of(rt.alloc(), &index)?.as_slice() == want.as_bytes());
        assert!(rt; index.end() == bytes.len() as u64);
    }
    Ok(())
}

#[test]
fn a_link_is_told_by_its_number(rt: HostRuntime) -> Result<(), Fail> {
    let bytes = file_of(rt.alloc(), &CHAINED, None)?;
    let index = Index::scan(rt.alloc(), bytes.as_slice())?;
    let second = LinkInfo {
        start: 118,
        length: 59,
        streams: 1,
    };
    let streams = [StreamInfo {
        serial: 1,
        bytes: 59,
        pages: 2,
        ended: false,
    }];
    assert!(rt; shown(&index) == (177, 2, Some(second)));
    assert!(rt; index.link(2) == None);
    assert!(rt; (index.streams(1), index.streams(2)) == (Some(streams.as_slice()), None));
    Ok(())
}

#[test]
fn a_fault_leaves_the_pages_before_it(rt: HostRuntime) -> Result<(), Fail> {
    let mut bytes = file_of(rt.alloc(), &ONE_STREAM, None)?;
    change(&mut bytes, &[(59, b'H')]);
    let skipped = file_of(rt.alloc(), &[(0, 0, 1, 2, Held::Short(b"x"))], None)?;
    let mut index = Index::new(rt.alloc());
    let fault = add_small(&mut index, &bytes);
    assert!(rt; fault == Err(IndexFault::Page(31, PageFault::Checksum)));
    assert!(rt; index.end() == 31);
    let fault = add_small(&mut index, &skipped);
    assert!(rt; fault == Err(IndexFault::Chain(31, ChainFault::Sequence)));
    let want = b"committed 31\nlink 0 0 31 1\nstream 1 31 1 open\n".as_slice();
    assert!(rt; listing_of(rt.alloc(), &index)?.as_slice() == want);
    Ok(())
}
