//! Packets of pages that are written out byte by byte, with checksums by another program.
pub(crate) mod streams;

use crate::files::{Held, PageSpec, file_of, joined};
use crate::pages::{END_PAGE, FIRST_PAGE, HELLO_PAGE};
use ogg_page::PageFault;
use packet_view::*;
use std::alloc::Global;
use std::test::Fail;

/// The second page of stream 1, at position 7: `x` and `yz`.
const TWO: [u8; 32] = [
    0x4F, 0x67, 0x67, 0x53, 0x00, 0x00, 0x07, 0x00, 0x00, 0x00, 0x00, 0x00, 0x00, 0x00, 0x01, 0x00,
    0x00, 0x00, 0x01, 0x00, 0x00, 0x00, 0x66, 0xBE, 0x17, 0xEA, 0x02, 0x01, 0x02, 0x78, 0x79, 0x7A,
];

/// The second page of stream 1, which begins with a continued packet: `x`.
const CONTINUED: [u8; 29] = [
    0x4F, 0x67, 0x67, 0x53, 0x00, 0x01, 0x09, 0x00, 0x00, 0x00, 0x00, 0x00, 0x00, 0x00, 0x01, 0x00,
    0x00, 0x00, 0x01, 0x00, 0x00, 0x00, 0xBC, 0xF5, 0xE0, 0xFE, 0x01, 0x01, 0x78,
];

/// The first page of stream 1, marked as its last too: `abc`.
const ONLY: [u8; 31] = [
    0x4F, 0x67, 0x67, 0x53, 0x00, 0x06, 0x00, 0x00, 0x00, 0x00, 0x00, 0x00, 0x00, 0x00, 0x01, 0x00,
    0x00, 0x00, 0x00, 0x00, 0x00, 0x00, 0x63, 0x76, 0xFB, 0x98, 0x01, 0x03, 0x61, 0x62, 0x63,
];

/// The second page of stream 1, without a position: `x`.
const NOWHERE: [u8; 29] = [
    0x4F, 0x67, 0x67, 0x53, 0x00, 0x00, 0xFF, 0xFF, 0xFF, 0xFF, 0xFF, 0xFF, 0xFF, 0xFF, 0x01, 0x00,
    0x00, 0x00, 0x01, 0x00, 0x00, 0x00, 0x4B, 0x1A, 0xD5, 0x48, 0x01, 0x01, 0x78,
];

/// The first page of stream 2: `abc`.
const OTHER: [u8; 31] = [
    0x4F, 0x67, 0x67, 0x53, 0x00, 0x02, 0x00, 0x00, 0x00, 0x00, 0x00, 0x00, 0x00, 0x00, 0x02, 0x00,
    0x00, 0x00, 0x00, 0x00, 0x00, 0x00, 0x75, 0x8E, 0x83, 0x2D, 0x01, 0x03, 0x61, 0x62, 0x63,
];

/// Pages, and what is read of stream 1 in them: its packets, each with its position, and then the fault.
struct Row {
    pages: &'static [&'static [u8]],
    packets: &'static [(&'static [u8], Option<u64>)],
    fault: Option<ViewFault>,
}

const ROWS: [Row; 9] = [
    Row {
        pages: &[&FIRST_PAGE, &HELLO_PAGE, &END_PAGE],
        packets: &[(b"abc", Some(0)), (b"hello", Some(5))],
        fault: None,
    },
    Row {
        pages: &[&FIRST_PAGE, &END_PAGE],
        packets: &[(b"abc", Some(0))],
        fault: Some(ViewFault::Sequence(31)),
    },
    Row {
        pages: &[&OTHER, &FIRST_PAGE, &TWO],
        packets: &[(b"abc", Some(0)), (b"x", None), (b"yz", Some(7))],
        fault: None,
    },
    Row {
        pages: &[&FIRST_PAGE, &NOWHERE],
        packets: &[(b"abc", Some(0)), (b"x", None)],
        fault: None,
    },
    Row {
        pages: &[&FIRST_PAGE, &CONTINUED],
        packets: &[(b"abc", Some(0))],
        fault: Some(ViewFault::Continued(31)),
    },
    Row {
        pages: &[&ONLY, &END_PAGE],
        packets: &[(b"abc", Some(0))],
        fault: Some(ViewFault::AfterEos(31)),
    },
    Row {
        pages: &[&FIRST_PAGE, b"Ogg"],
        packets: &[(b"abc", Some(0))],
        fault: Some(ViewFault::Page(31, PageFault::Short)),
    },
    Row {
        pages: &[&OTHER],
        packets: &[],
        fault: None,
    },
    Row {
        pages: &[],
        packets: &[],
        fault: None,
    },
];

/// Whether the next packet has these bytes and this position.
fn is_next(
    packets: &mut Packets<'_>,
    text: &[u8],
    position: Option<u64>,
) -> Result<bool, ViewFault> {
    match packets.next()? {
        Some(packet) => Ok(
            packet.as_slice() == Some(text)
                && packet.len() == text.len()
                && packet.position() == position,
        ),
        None => Ok(false),
    }
}

/// The fault that ends the packets, or `Some(None)` at their end. If a packet comes in its place, there is no answer.
fn end_of(packets: &mut Packets<'_>) -> Option<Option<ViewFault>> {
    match packets.next() {
        Ok(Some(_)) => None,
        Ok(None) => Some(None),
        Err(fault) => Some(Some(fault)),
    }
}

/// Whether the row's packets come, and then twice its fault or the end.
fn come(bytes: &[u8], row: &Row) -> Result<bool, ViewFault> {
    let mut packets = Packets::of(bytes, 1);
    for (text, position) in row.packets {
        if !is_next(&mut packets, text, *position)? {
            return Ok(false);
        }
    }
    let ends = (end_of(&mut packets), end_of(&mut packets));
    Ok(ends == (Some(row.fault), Some(row.fault)))
}

#[test]
fn packets_come_up_to_the_first_fault(rt: HostRuntime) -> Result<(), Fail> {
    for row in &ROWS {
        let bytes = joined(rt.alloc(), row.pages)?;
        assert!(rt; come(&bytes, row)?);
    }
    Ok(())
}

/// A page of 283 bytes whose packet goes on.
const OPEN: [PageSpec; 1] = [(2, u64::MAX, 1, 0, Held::Open)];

/// The places of that packet, when it goes on as `x`, and their bytes.
const PLACES: [(usize, u8); 3] = [(0, 7), (254, 7), (255, b'x')];

/// Whether a packet is the one of two parts, which are 255 bytes of 7 and `x`.
fn is_of_two_parts(packet: &Packet<'_>, whole: &[u8]) -> bool {
    let size = (packet.len(), packet.position());
    let is_split = size == (256, Some(9)) && packet.as_slice().is_none();
    is_split && gives_two_parts(packet) && is_same(packet, whole)
}

fn gives_two_parts(packet: &Packet<'_>) -> bool {
    let mut parts = packet.parts();
    let found = (parts.next(), parts.next(), parts.next());
    found == (Some([7; 255].as_slice()), Some(b"x".as_slice()), None)
}

/// Whether a packet has these bytes, found all at once and one by one, and no others.
fn is_same(packet: &Packet<'_>, whole: &[u8]) -> bool {
    for &(index, want) in &PLACES {
        if index >= packet.len() || packet.byte_at(index) != want {
            return false;
        }
    }
    packet.same_as(whole) && !packet.same_as(&[7; 255]) && !packet.same_as(&[7; 256])
}

/// Whether a packet is written as these bytes.
fn is_written(alloc: Global, packet: &Packet<'_>, whole: &[u8]) -> bool {
    let mut out = Vec::new(alloc);
    packet.write_to(&mut out).is_ok() && out.as_slice() == whole
}

/// Whether these bytes begin with that packet, and it is written whole.
fn is_read_whole(alloc: Global, bytes: &[u8], whole: &[u8]) -> bool {
    match Packets::of(bytes, 1).next() {
        Ok(Some(packet)) => is_of_two_parts(&packet, whole) && is_written(alloc, &packet, whole),
        _other => false,
    }
}

#[test]
fn a_packet_goes_on_behind_pages_of_other_streams(rt: HostRuntime) -> Result<(), Fail> {
    let open = file_of(rt.alloc(), &OPEN, None)?;
    let whole = joined(rt.alloc(), &[&[7; 255], b"x"])?;
    let next = joined(rt.alloc(), &[&open, &CONTINUED])?;
    assert!(rt; is_read_whole(rt.alloc(), &next, &whole));
    let behind = joined(rt.alloc(), &[&open, &OTHER, &CONTINUED])?;
    assert!(rt; is_read_whole(rt.alloc(), &behind, &whole));
    assert!(rt; end_of(&mut Packets::of(&open, 1)) == Some(Some(ViewFault::Unfinished)));
    Ok(())
}
