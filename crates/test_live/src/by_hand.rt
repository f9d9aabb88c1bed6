//! A link that is joined, written out by hand.
ghost use Rattle.std.specs.Prelude.{◌≡◌, ◌≤◌, true, length, sum};

use crate::hearing::{join, page_ends, pull_all};
use crate::recording::Joinable;
use ogg_page::{FIRST, LAST, PageHead, write_page};
use serve_live::JoinPlace;
use std::alloc::{AllocError, Global};

/// A page: its flags, position, serial and number, its lacing values, and the bytes that they stand for.
type PageSpec = (u8, u64, u32, u32, &'static [u8], &'static [u8]);

/// The flag of a page that goes on with a packet.
const CONTINUED: u8 = 1;

/// So many bytes of a packet that goes on.
const FULL: &[u8] = &[7; 255];

/// A link of two streams that was begun with a Skeleton, which ended within its beginning. Stream 2 ends before the
/// boundary, after seven pages. Then stream 1 goes on, with a packet over two pages, and another link follows.
const PAGES: [PageSpec; 15] = [
    (FIRST, 0, 9, 0, &[7], b"fishead"),
    (FIRST, 0, 1, 0, &[3], b"abc"),
    (FIRST, 0, 2, 0, &[3], b"abc"),
    (LAST, 0, 9, 1, &[0], b""),
    (0, 4, 1, 1, &[6], b"passed"),
    (0, 9, 2, 1, &[6], b"passed"),
    (LAST, 9, 2, 2, &[], b""),
    (0, 8, 1, 2, &[5], b"heard"),
    (0, u64::MAX, 1, 3, &[255], FULL),
    (CONTINUED, 9, 1, 4, &[4], b"more"),
    (LAST, 9, 1, 5, &[], b""),
    (FIRST, 0, 3, 0, &[4], b"next"),
    (0, 5, 3, 1, &[8], b"as it is"),
    (0, 6, 3, 2, &[8], b"as it is"),
    (LAST, 6, 3, 3, &[], b""),
];

/// How many pages begin the link, and how many stand before the boundary.
const BEGUN: usize = 4;

const PASSED: usize = 7;

/// What is heard.
const HEARD: [PageSpec; 13] = [
    (FIRST, 0, 9, 0, &[7], b"fishead"),
    (FIRST, 0, 1, 0, &[3], b"abc"),
    (FIRST, 0, 2, 0, &[3], b"abc"),
    (LAST, 0, 9, 1, &[0], b""),
    (LAST, 9, 2, 1, &[], b""),
    (0, 8, 1, 1, &[5], b"heard"),
    (0, u64::MAX, 1, 2, &[255], FULL),
    (CONTINUED, 9, 1, 3, &[4], b"more"),
    (LAST, 9, 1, 4, &[], b""),
    (FIRST, 0, 3, 0, &[4], b"next"),
    (0, 5, 3, 1, &[8], b"as it is"),
    (0, 6, 3, 2, &[8], b"as it is"),
    (LAST, 6, 3, 3, &[], b""),
];

/// The bytes of the pages.
fn bytes_of(alloc: Global, pages: &[PageSpec]) -> Result<Vec<u8>, AllocError> {
    let mut out = Vec::new(alloc);
    for (flags, position, serial, sequence, lacing, body) in pages {
        let head = PageHead {
            flags: *flags,
            position: *position,
            serial: *serial,
            sequence: *sequence,
        };
        if is_page(lacing, body) {
            write_page(&head, lacing, body, &mut out)?;
        }
    }
    Ok(out)
}

/// Whether these are the table and the body of a page.
fn is_page(lacing: &[u8], body: &[u8]) -> bool
    ensures { result ≡ true → (length lacing.now ≤ 255) × (sum lacing.now ≡ length body.now) }
{
    lacing.len() <= 255 && size_of(lacing) == body.len()
}

/// How many bytes the lacing values stand for.
fn size_of(lacing: &[u8]) -> usize
    requires { length lacing.now ≤ 255 }
    ensures { result ≡ sum lacing.now }
{
    let mut size = 0;
    for value in lacing {
        size += usize::from(*value);
    }
    size
}

/// Whether a listener hears the pages that it should, in pieces of each size, whether it joins at the boundary or later.
pub fn is_heard_by_hand(alloc: Global) -> Result<bool, AllocError> {
    let bytes = bytes_of(alloc, &PAGES)?;
    let want = bytes_of(alloc, &HEARD)?;
    let ends = page_ends(alloc, &bytes)?;
    let (Some(begun), Some(boundary), Some(later)) = (
        ends.get(BEGUN - 1).copied(),
        ends.get(PASSED - 1).copied(),
        ends.get(PASSED + 2).copied(),
    ) else {
        return Ok(false);
    };
    let at = Joinable {
        place: JoinPlace {
            begin: 0,
            begun,
            boundary,
        },
        link_end: later,
    };
    for joined in [boundary, later] {
        for size in [1, 2, 26, 27, 28, 282, 65_536] {
            let Some(listener) = join(alloc, &bytes, &at, joined)? else {
                return Ok(false);
            };
            let heard = pull_all(alloc, listener, &bytes, &ends, joined, size)?;
            if heard.as_slice() != want.as_slice() {
                return Ok(false);
            }
        }
    }
    Ok(true)
}
