//! Values from outside: the checksum's vectors, and one page byte by byte.
use crate::files::{change, joined};
use ogg_page::*;
use std::alloc::Global;
use std::test::Fail;

mod making;
mod piped;
mod windows;

/// Bytes and their checksum, as libogg has it.
const CHECKSUMS: [(&[u8], u32); 6] = [
    (b"", 0),
    (&[0x01], 0x04C1_1DB7),
    (&[0x02], 0x0982_3B6E),
    (&[0x80], 0x690C_E0EE),
    (b"123456789", 0x89A1_897F),
    (b"abcdefghijklmnopqrstuvwxyz01234", 0xF3AF_5714),
];

#[test]
fn checksums_are_those_of_the_standard(rt: HostRuntime) {
    for &(bytes, want) in &CHECKSUMS {
        assert!(rt; checksum(bytes) == want);
    }
}

/// The first page of stream 1, which holds the packet `abc`: made by hand from RFC 3533, section 6.
pub(crate) const FIRST_PAGE: [u8; 31] = [
    0x4F, 0x67, 0x67, 0x53, 0x00, 0x02, 0x00, 0x00, 0x00, 0x00, 0x00, 0x00, 0x00, 0x00, 0x01, 0x00,
    0x00, 0x00, 0x00, 0x00, 0x00, 0x00, 0x92, 0xDD, 0xF6, 0x15, 0x01, 0x03, 0x61, 0x62, 0x63,
];

/// The second page of stream 1, at position 5: `hello`. The checksum is by another program, as it is of the pages that
/// follow.
pub(crate) const HELLO_PAGE: [u8; 33] = [
    0x4F, 0x67, 0x67, 0x53, 0x00, 0x00, 0x05, 0x00, 0x00, 0x00, 0x00, 0x00, 0x00, 0x00, 0x01, 0x00,
    0x00, 0x00, 0x01, 0x00, 0x00, 0x00, 0xBB, 0xFE, 0x76, 0xEA, 0x01, 0x05, 0x68, 0x65, 0x6C, 0x6C,
    0x6F,
];

/// The last page of stream 1, at position 5, without a packet.
pub(crate) const END_PAGE: [u8; 27] = [
    0x4F, 0x67, 0x67, 0x53, 0x00, 0x04, 0x05, 0x00, 0x00, 0x00, 0x00, 0x00, 0x00, 0x00, 0x01, 0x00,
    0x00, 0x00, 0x02, 0x00, 0x00, 0x00, 0xDB, 0x9D, 0x91, 0x8B, 0x00,
];

/// The three pages of stream 1, of 31, 33 and 27 bytes.
pub(crate) const THREE_PAGES: [&[u8]; 3] = [&FIRST_PAGE, &HELLO_PAGE, &END_PAGE];

/// The first page of a Skeleton 3.0 of serial 9: a `fishead` packet of 64 bytes, with the
/// presentation and base time 0/1000 and no calendar time.
const FISHEAD_PAGE: [u8; 92] = [
    0x4F, 0x67, 0x67, 0x53, 0x00, 0x02, 0x00, 0x00, 0x00, 0x00, 0x00, 0x00, 0x00, 0x00, 0x09, 0x00,
    0x00, 0x00, 0x00, 0x00, 0x00, 0x00, 0x7D, 0xCD, 0x28, 0xF3, 0x01, 0x40, 0x66, 0x69, 0x73, 0x68,
    0x65, 0x61, 0x64, 0x00, 0x03, 0x00, 0x00, 0x00, 0x00, 0x00, 0x00, 0x00, 0x00, 0x00, 0x00, 0x00,
    0xE8, 0x03, 0x00, 0x00, 0x00, 0x00, 0x00, 0x00, 0x00, 0x00, 0x00, 0x00, 0x00, 0x00, 0x00, 0x00,
    0xE8, 0x03, 0x00, 0x00, 0x00, 0x00, 0x00, 0x00, 0x00, 0x00, 0x00, 0x00, 0x00, 0x00, 0x00, 0x00,
    0x00, 0x00, 0x00, 0x00, 0x00, 0x00, 0x00, 0x00, 0x00, 0x00, 0x00, 0x00,
];

/// The Skeleton's page of stream 1: a `fisbone` packet of 80 bytes, with the rate 44100/1, one
/// header and the message field `Content-Type: audio/vorbis`.
const FISBONE_PAGE: [u8; 108] = [
    0x4F, 0x67, 0x67, 0x53, 0x00, 0x00, 0x00, 0x00, 0x00, 0x00, 0x00, 0x00, 0x00, 0x00, 0x09, 0x00,
    0x00, 0x00, 0x01, 0x00, 0x00, 0x00, 0xCD, 0xC2, 0x96, 0x10, 0x01, 0x50, 0x66, 0x69, 0x73, 0x62,
    0x6F, 0x6E, 0x65, 0x00, 0x2C, 0x00, 0x00, 0x00, 0x01, 0x00, 0x00, 0x00, 0x01, 0x00, 0x00, 0x00,
    0x44, 0xAC, 0x00, 0x00, 0x00, 0x00, 0x00, 0x00, 0x01, 0x00, 0x00, 0x00, 0x00, 0x00, 0x00, 0x00,
    0x00, 0x00, 0x00, 0x00, 0x00, 0x00, 0x00, 0x00, 0x00, 0x00, 0x00, 0x00, 0x00, 0x00, 0x00, 0x00,
    0x43, 0x6F, 0x6E, 0x74, 0x65, 0x6E, 0x74, 0x2D, 0x54, 0x79, 0x70, 0x65, 0x3A, 0x20, 0x61, 0x75,
    0x64, 0x69, 0x6F, 0x2F, 0x76, 0x6F, 0x72, 0x62, 0x69, 0x73, 0x0D, 0x0A,
];

/// The last page of that Skeleton, which holds a packet of no bytes.
const SKELETON_END: [u8; 28] = [
    0x4F, 0x67, 0x67, 0x53, 0x00, 0x04, 0x00, 0x00, 0x00, 0x00, 0x00, 0x00, 0x00, 0x00, 0x09, 0x00,
    0x00, 0x00, 0x02, 0x00, 0x00, 0x00, 0xD6, 0x32, 0x34, 0x07, 0x01, 0x00,
];

/// What the writer of the first page chooses.
const FIRST_HEAD: PageHead = PageHead {
    flags: 2,
    position: 0,
    serial: 1,
    sequence: 0,
};

/// That page, written after a byte.
fn appended(alloc: Global) -> Result<Vec<u8>, Memory> {
    let mut out = joined(alloc, &[&[7]])?;
    write_page(&FIRST_HEAD, &[3], b"abc", &mut out)?;
    Ok(out)
}

/// The same, closed after its body.
fn closed(alloc: Global) -> Result<Vec<u8>, Memory> {
    let mut out = [7u8].to_vec(alloc)?;
    out.reserve(31)?;
    open_page(&FIRST_HEAD, &[3], &mut out);
    out.extend_from_slice(b"abc")?;
    close_page(1, &mut out);
    Ok(out)
}

#[test]
fn a_page_is_appended_byte_for_byte(rt: HostRuntime) -> Result<(), Fail> {
    let want = joined(rt.alloc(), &[&[7], &FIRST_PAGE])?;
    assert!(rt; appended(rt.alloc())?.as_slice() == want.as_slice());
    assert!(rt; closed(rt.alloc())?.as_slice() == want.as_slice());
    Ok(())
}

#[test]
fn text_reaches_a_writer_whole(rt: HostRuntime) -> Result<(), Fail> {
    let mut out = Vec::new(rt.alloc());
    write_whole(&mut out, b"OggS")?;
    assert!(rt; out.as_slice() == b"OggS".as_slice());
    Ok(())
}

/// Changes of one byte of that page: the place, the new value, the code of the first fault.
const CHANGED: [(usize, u8, u8); 12] = [
    (0, b'o', 2),
    (3, b's', 2),
    (4, 1, 3),
    (5, 3, 4),
    (6, 1, 4),
    (22, 0x93, 4),
    (26, 0, 4),
    (26, 2, 1),
    (27, 2, 4),
    (27, 4, 1),
    (28, b'b', 4),
    (30, b'd', 4),
];

/// Lengths of fronts of that page.
const CUT: [usize; 6] = [0, 1, 26, 27, 28, 30];

/// The fault's code, or 0 for a page.
fn code_of(bytes: &[u8]) -> u8 {
    match read_page(bytes) {
        Ok(_) => 0,
        Err(fault) => fault.code(),
    }
}

#[test]
fn a_page_that_is_changed_or_cut_is_refused_by_its_first_fault(rt: HostRuntime) {
    for &(place, value, code) in &CHANGED {
        let mut bytes = FIRST_PAGE;
        change(&mut bytes, &[(place, value)]);
        assert!(rt; code_of(&bytes) == code);
    }
    for &length in &CUT {
        let front = FIRST_PAGE.get(..length).unwrap_or(&FIRST_PAGE);
        assert!(rt; code_of(front) == PageFault::Short.code());
    }
}

/// How many of the 255 other values for the byte at `place` of `page` make `read_page` refuse it.
fn refused_at(alloc: Global, page: &[u8], place: usize) -> Result<u64, Memory> {
    let mut bytes = joined(alloc, &[page])?;
    let mut refused: u64 = 0;
    for step in 1..=255u8 {
        if let Some(byte) = bytes.get_mut(place) {
            *byte = byte.wrapping_add(1);
        }
        if code_of(&bytes) != 0 {
            refused = refused.saturating_add(1);
        }
    }
    Ok(refused)
}

/// Pages of which each byte is changed, but those that give the page's length.
const EACH_CHANGED: [&[u8]; 4] = [&FISHEAD_PAGE, &FIRST_PAGE, &FISBONE_PAGE, &SKELETON_END];

#[test]
fn each_changed_byte_of_a_page_is_a_fault(rt: HostRuntime) -> Result<(), Fail> {
    for &page in &EACH_CHANGED {
        assert!(rt; read_page(page).is_ok_and(|read| read.whole() == page));
        for place in 0..page.len() {
            if place != 26 && place != 27 {
                assert!(rt; refused_at(rt.alloc(), page, place)? == 255);
            }
        }
    }
    Ok(())
}

/// The parts of the page at the front: its flags, position, serial and sequence, its lacing values, body and bytes.
fn parts(bytes: &[u8]) -> Option<((u8, u64, u32, u32), &[u8], &[u8], &[u8])> {
    match read_page(bytes) {
        Ok(page) => Some((
            (
                page.flags(),
                page.position(),
                page.serial(),
                page.sequence(),
            ),
            page.lacing(),
            page.body(),
            page.whole(),
        )),
        Err(_) => None,
    }
}

#[test]
fn a_page_is_read_part_by_part(rt: HostRuntime) -> Result<(), Fail> {
    let bytes = joined(rt.alloc(), &[&HELLO_PAGE, &END_PAGE])?;
    let want = (
        (0, 5, 1, 1),
        [5].as_slice(),
        b"hello".as_slice(),
        HELLO_PAGE.as_slice(),
    );
    assert!(rt; parts(&bytes) == Some(want));
    Ok(())
}

/// What is shown of a thing that is found: the offset and sequence of a page, or the offset and
/// code of a fault.
type Shown = Option<Result<(u64, u32), (u64, u8)>>;

/// The next page or fault.
fn next_of(pages: &mut Pages<'_>) -> Shown {
    match pages.next() {
        Some(Ok((offset, page))) => Some(Ok((offset, page.sequence()))),
        Some(Err((offset, fault))) => Some(Err((offset, fault.code()))),
        None => None,
    }
}

/// The first letter of `hello` in the three pages, and what is found: a fault comes last and once.
const FOUND: [(u8, [Shown; 5]); 2] = [
    (
        b'h',
        [
            Some(Ok((0, 0))),
            Some(Ok((31, 1))),
            Some(Ok((64, 2))),
            None,
            None,
        ],
    ),
    (
        b'H',
        [Some(Ok((0, 0))), Some(Err((31, 4))), None, None, None],
    ),
];

#[test]
fn pages_are_found_with_their_offsets_up_to_a_fault(rt: HostRuntime) -> Result<(), Fail> {
    for &(letter, found) in &FOUND {
        let mut bytes = joined(rt.alloc(), &THREE_PAGES)?;
        change(&mut bytes, &[(59, letter)]);
        let mut pages = Pages::of(&bytes);
        for want in found {
            assert!(rt; next_of(&mut pages) == want);
        }
    }
    Ok(())
}
