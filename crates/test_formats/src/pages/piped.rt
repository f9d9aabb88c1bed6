//! Pages that come through a pipe, and the feed that is made of them.
use super::{
    END_PAGE, FIRST_PAGE, FISBONE_PAGE, FISHEAD_PAGE, HELLO_PAGE, SKELETON_END, THREE_PAGES,
};
use crate::feeds::fakes::{FakeReader, FakeWriter};
use crate::feeds::{ANNOUNCEMENT, END, PUT};
use crate::files::joined;
use import_feed::{ChangeOptions, Made, MakingFault, Skeletons, make_feed};
use import_pages::{PageReader, PageReaderFault};
use std::alloc::Global;
use std::test::Fail;

/// How many bytes a read returns, and how often the reader was called when each of the three pages was returned: as
/// soon as the page's last byte was there.
const CALLS: [(usize, [u64; 3]); 5] = [
    (1, [31, 64, 91]),
    (31, [1, 3, 3]),
    (40, [1, 2, 3]),
    (64, [1, 1, 2]),
    (1000, [1, 1, 1]),
];

/// The fault of the next advance if there is one, whether a page is lent, and how often the reader was called so far.
fn advanced(
    pages: &mut PageReader,
    reader: &mut FakeReader<'_>,
) -> (Option<PageReaderFault>, bool, u64) {
    let fault = pages.advance(reader).err();
    (fault, pages.lent().is_some(), reader.calls())
}

#[test]
fn a_page_is_given_with_its_last_byte(rt: HostRuntime) -> Result<(), Fail> {
    let bytes = joined(rt.alloc(), &THREE_PAGES)?;
    for &(step, calls) in &CALLS {
        let mut reader = FakeReader::new(&bytes, step, 0);
        let mut pages = PageReader::new(rt.alloc())?;
        for want in calls {
            assert!(rt; advanced(&mut pages, &mut reader) == (None, true, want));
        }
        let (fault, is_lent, _) = advanced(&mut pages, &mut reader);
        assert!(rt; (fault, is_lent, pages.offset()) == (None, false, 91));
    }
    Ok(())
}

#[test]
fn a_failing_read_stays_a_fault(rt: HostRuntime) -> Result<(), Fail> {
    let bytes = joined(rt.alloc(), &THREE_PAGES)?;
    let mut reader = FakeReader::new(&bytes, 40, 2);
    let mut pages = PageReader::new(rt.alloc())?;
    assert!(rt; advanced(&mut pages, &mut reader) == (None, true, 1));
    for _ in 0..2 {
        let found = advanced(&mut pages, &mut reader);
        assert!(rt; found == (Some(PageReaderFault::Read), false, 2));
        assert!(rt; pages.offset() == 31);
    }
    Ok(())
}

/// A begin of version 2 of stream 1 with the header `abc`. `PUT` and `END` are its packet and its end.
const BEGIN: [u8; 54] = *b"\x01\x31\0\0\0\0\x01\0\x01\0\0\0\x01\0\x03\0\0\0abc\0\0\
    \0\0\0\0\0\0\0\0\0\0\0\0\0\0\0\0\0\0\0\0\0\0\0\0\0\0\0\0\0\0\0";

/// The records of the same commands, of stream 0.
const RECORDS_OF_STREAM_0: [u8; 91] = *b"\x01\x31\0\0\0\0\x01\0\0\0\0\0\x01\0\x03\0\0\0abc\0\0\
    \0\0\0\0\0\0\0\0\0\0\0\0\0\0\0\0\0\0\0\0\0\0\0\0\0\0\0\0\0\0\0\
    \x02\x17\0\0\0\x01\0\0\0\0\0\x05\0\0\0\0\0\0\0\x05\0\0\0hello\
    \x03\x04\0\0\0\0\0\0\0";

/// The begin of stream 1 with a Skeleton of serial 9: from 0 seconds on, no time of day, a codec that isn't known, and
/// a rate of 1.
const DESCRIBED: [u8; 134] = *b"\x01\x81\0\0\0\x01\x09\0\0\0\
    \0\0\0\0\0\0\0\0\xE8\x03\0\0\0\0\0\0\0\0\0\0\0\0\0\0\xE8\x03\0\0\0\0\0\0\
    \0\0\0\0\0\0\0\0\0\0\0\0\0\0\0\0\0\0\0\0\
    \x01\0\x01\0\0\0\x01\0\x03\0\0\0abc\x18\0application/octet-stream\
    \x01\0\0\0\0\0\0\0\x01\0\0\0\0\0\0\0\0\0\0\0\0\0\0\0\0\0\0\0\0\0\0";

/// An input in pieces, how many bytes a read takes and which read fails, how many bytes a write takes, the options
/// (with `None` nothing is changed), what is written, and the answer.
type Making = (
    &'static [&'static [u8]],
    (usize, u64),
    usize,
    Option<ChangeOptions>,
    &'static [&'static [u8]],
    Result<Made, MakingFault>,
);

const MAKINGS: [Making; 8] = [
    (
        &THREE_PAGES,
        (1, 0),
        1,
        None,
        &[&ANNOUNCEMENT, &BEGIN, &PUT, &END],
        Ok(Made {
            pages: 3,
            commands: 3,
        }),
    ),
    (
        &THREE_PAGES,
        (40, 0),
        40,
        None,
        &[&ANNOUNCEMENT, &BEGIN, &PUT, &END],
        Ok(Made {
            pages: 3,
            commands: 3,
        }),
    ),
    (
        &THREE_PAGES,
        (1000, 0),
        1000,
        None,
        &[&ANNOUNCEMENT, &BEGIN, &PUT, &END],
        Ok(Made {
            pages: 3,
            commands: 3,
        }),
    ),
    // What is whole is written before a fault is told: of the first page alone, whose stream's begin waits, and of the
    // first two.
    (
        &[&FIRST_PAGE],
        (100, 2),
        1000,
        None,
        &[&ANNOUNCEMENT, &BEGIN],
        Err(MakingFault::Read(31)),
    ),
    (
        &[&FIRST_PAGE, &HELLO_PAGE],
        (100, 2),
        1000,
        None,
        &[&ANNOUNCEMENT, &BEGIN, &PUT],
        Err(MakingFault::Read(64)),
    ),
    // A second copy gets a free serial.
    (
        &[
            &FIRST_PAGE,
            &HELLO_PAGE,
            &END_PAGE,
            &FIRST_PAGE,
            &HELLO_PAGE,
            &END_PAGE,
        ],
        (40, 0),
        1000,
        Some(ChangeOptions {
            renumber: true,
            skeletons: Skeletons::Kept,
        }),
        &[&ANNOUNCEMENT, &BEGIN, &PUT, &END, &RECORDS_OF_STREAM_0],
        Ok(Made {
            pages: 6,
            commands: 6,
        }),
    ),
    // A Skeleton is made.
    (
        &THREE_PAGES,
        (40, 0),
        1000,
        Some(ChangeOptions {
            renumber: false,
            skeletons: Skeletons::Made(9),
        }),
        &[&ANNOUNCEMENT, &DESCRIBED, &PUT, &END],
        Ok(Made {
            pages: 3,
            commands: 3,
        }),
    ),
    // A Skeleton is left out.
    (
        &[
            &FISHEAD_PAGE,
            &FIRST_PAGE,
            &FISBONE_PAGE,
            &SKELETON_END,
            &HELLO_PAGE,
            &END_PAGE,
        ],
        (40, 0),
        1000,
        Some(ChangeOptions {
            renumber: false,
            skeletons: Skeletons::LeftOut,
        }),
        &[&ANNOUNCEMENT, &BEGIN, &PUT, &END],
        Ok(Made {
            pages: 6,
            commands: 3,
        }),
    ),
];

/// What `make_feed` answers, and what it wrote before.
fn made(
    alloc: Global,
    input: &[u8],
    (step, bad): (usize, u64),
    write_step: usize,
    options: ChangeOptions,
) -> (Result<Made, MakingFault>, FakeWriter) {
    let mut reader = FakeReader::new(input, step, bad);
    let mut writer = FakeWriter::new(Vec::new(alloc), write_step, 0);
    let answer = make_feed(alloc, &mut reader, &mut writer, options);
    (answer, writer)
}

#[test]
fn a_feed_is_made_of_pages(rt: HostRuntime) -> Result<(), Fail> {
    for &(pieces, reads, write_step, options, written, want) in &MAKINGS {
        let input = joined(rt.alloc(), pieces)?;
        let options = match options {
            Some(options) => options,
            None => ChangeOptions::none(),
        };
        let (answer, writer) = made(rt.alloc(), &input, reads, write_step, options);
        assert!(rt; answer == want);
        let written = joined(rt.alloc(), written)?;
        assert!(rt; writer.written() == written.as_slice());
    }
    Ok(())
}

/// An input, which of its reads fails, and how often the writer is flushed: after the announcement, after each page that
/// completes a command, and at the end if commands waited.
const FLUSHES: [(&[&[u8]], u64, u64); 5] = [
    (&[], 0, 1),
    (&[&FIRST_PAGE], 0, 2),
    (&[&FIRST_PAGE, &HELLO_PAGE], 0, 2),
    (&[&FIRST_PAGE, &HELLO_PAGE], 2, 2),
    (&THREE_PAGES, 0, 3),
];

#[test]
fn what_a_page_completes_is_flushed(rt: HostRuntime) -> Result<(), Fail> {
    for &(pieces, bad, flushes) in &FLUSHES {
        let input = joined(rt.alloc(), pieces)?;
        let (_, writer) = made(rt.alloc(), &input, (100, bad), 7, ChangeOptions::none());
        assert!(rt; writer.flushes() == (flushes, writer.written().len()));
    }
    Ok(())
}
