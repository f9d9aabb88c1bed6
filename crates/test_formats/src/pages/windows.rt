//! Windows over sources that read, and that fail.
use super::THREE_PAGES;
use crate::files::{Failing, Held, PageSpec, file_of, joined, over};
use ogg_page::{FIRST, PageBuffer, PageFault, PageSource, Whole, Window, WindowFault};
use std::alloc::Global;
use std::test::Fail;

/// Pages of 31, 65,307, 27 and 31 bytes.
const LONG_PAGES: [PageSpec; 4] = [
    (FIRST, 0, 1, 0, Held::Short(b"abc")),
    (FIRST, 0, 1, 0, Held::Front),
    (FIRST, 0, 1, 0, Held::Nothing),
    (FIRST, 0, 1, 0, Held::Short(b"def")),
];

/// Those pages, and then four bytes of a front.
fn long_bytes(alloc: Global) -> Result<Vec<u8>, Fail> {
    let pages = file_of(alloc, &LONG_PAGES, None)?;
    Ok(joined(alloc, &[&pages, b"OggS"])?)
}

/// Where a page begins in the source, and how long it is.
type Place = (u64, usize);

/// Whether the bytes are the long ones or the three pages, a range of them, its pages, and what comes after.
const RANGES: [(bool, u64, u64, &[Place], Result<Option<Place>, WindowFault>); 8] = [
    (
        true,
        0,
        65_400,
        &[(0, 31), (31, 65_307), (65_338, 27), (65_365, 31)],
        Err(WindowFault::Page(65_396, PageFault::Short)),
    ),
    (false, 0, 91, &[(0, 31), (31, 33), (64, 27)], Ok(None)),
    (false, 31, 91, &[(31, 33), (64, 27)], Ok(None)),
    (false, 31, 64, &[(31, 33)], Ok(None)),
    (false, 64, 64, &[], Ok(None)),
    (
        false,
        0,
        63,
        &[(0, 31)],
        Err(WindowFault::Page(31, PageFault::Short)),
    ),
    (
        false,
        1,
        91,
        &[],
        Err(WindowFault::Page(1, PageFault::Pattern)),
    ),
    (
        false,
        64,
        90,
        &[],
        Err(WindowFault::Page(64, PageFault::Short)),
    ),
];

/// The next page that is lent.
fn lent<S: PageSource>(window: &mut Window<S>) -> Result<Option<Place>, WindowFault> {
    match window.next()? {
        Some(lent) => Ok(Some((lent.offset(), lent.page().whole().len()))),
        None => Ok(None),
    }
}

/// Whether these pages are lent, and then this end.
fn lends<S: PageSource>(
    window: &mut Window<S>,
    places: &[Place],
    end: Result<Option<Place>, WindowFault>,
) -> bool {
    for want in places {
        if lent(window) != Ok(Some(*want)) {
            return false;
        }
    }
    // The end stays, and so does a fault, until `set`.
    let ends = (lent(window), lent(window));
    window.set(0, 0);
    ends == (end, end) && (lent(window), lent(window)) == (Ok(None), Ok(None))
}

#[test]
fn a_range_has_its_pages_with_offsets_in_the_source(rt: HostRuntime) -> Result<(), Fail> {
    let long = long_bytes(rt.alloc())?;
    let three = joined(rt.alloc(), &THREE_PAGES)?;
    let mut buffer = PageBuffer::new(rt.alloc())?;
    for &(is_long, from, to, places, end) in &RANGES {
        let bytes = if is_long { &long } else { &three };
        let mut window = over(Whole::of(bytes), buffer, from, to);
        assert!(rt; lends(&mut window, places, end));
        (_, buffer) = window.into_parts();
    }
    Ok(())
}

/// How many pages are lent before the end, or before the source fails.
fn pages_before_a_fault(window: &mut Window<Failing<'_>>) -> Result<u64, u64> {
    for count in 0..100 {
        match lent(window) {
            Ok(Some(_)) => {}
            Ok(None) => return Ok(count),
            Err(WindowFault::Source) => return Err(count),
            Err(WindowFault::Page(offset, _)) => return Ok(offset),
        }
    }
    Err(100)
}

/// How many pages are lent before the read with this number fails, counted from 1. In the last row no read fails, and
/// the fault is that of the four bytes at 65,396.
const FAILING_READS: [(u64, Result<u64, u64>); 4] = [
    (1, Err(0)),
    (2, Err(1)),
    (3, Err(2)),
    (4, Ok(65_396)),
];

/// Whether the window says again that the source failed, until `set`.
fn says_so_until_set(window: &mut Window<Failing<'_>>) -> bool {
    let again = lent(window);
    window.set(0, 0);
    again == Err(WindowFault::Source) && lent(window) == Ok(None)
}

/// Whether this is found if the read with this number fails, and the buffer again.
fn is_found(
    bytes: &[u8],
    buffer: PageBuffer,
    number: u64,
    want: Result<u64, u64>,
) -> (bool, PageBuffer) {
    let mut window = over(Failing::new(bytes, number), buffer, 0, 65_400);
    let is_first = pages_before_a_fault(&mut window) == want;
    let stays = want.is_ok() || says_so_until_set(&mut window);
    let (source, buffer) = window.into_parts();
    let is_counted = source.failures == u64::from(want.is_err());
    (is_first && stays && is_counted, buffer)
}

#[test]
fn each_read_fails_in_turn(rt: HostRuntime) -> Result<(), Fail> {
    let bytes = long_bytes(rt.alloc())?;
    let mut buffer = PageBuffer::new(rt.alloc())?;
    for &(number, want) in &FAILING_READS {
        let (found, again) = is_found(&bytes, buffer, number, want);
        assert!(rt; found);
        buffer = again;
    }
    Ok(())
}
