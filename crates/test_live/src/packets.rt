//! The packets of what was heard, beside those that were recorded.
use crate::recording::Joinable;
use link_index::Index;
use packet_view::{Packet, Packets};
use std::alloc::{AllocError, Global};

/// Digests of a stream's packets.
type Digests = Vec<u64>;

/// A packet's digest (FNV-1a, 64 bits, with the length in front).
fn digest(packet: &Packet<'_>) -> u64 {
    let mut digest: u64 = 0xCBF2_9CE4_8422_2325 ^ packet.len() as u64;
    for part in packet.parts() {
        for byte in part {
            digest = (digest ^ u64::from(*byte)).wrapping_mul(0x0100_0000_01B3);
        }
    }
    digest
}

/// The digests of a stream's packets in these bytes.
fn digests(alloc: Global, bytes: &[u8], serial: u32) -> Result<Digests, AllocError> {
    let mut found = Vec::new(alloc);
    let mut packets = Packets::of(bytes, serial);
    for _ in 0..=bytes.len() {
        match packets.next() {
            Ok(Some(packet)) => found.push(digest(&packet))?,
            _ => break,
        }
    }
    Ok(found)
}

/// Part of the bytes.
fn part(bytes: &[u8], from: u64, to: u64) -> &[u8] {
    let (from, to) = (from as usize, to as usize);
    if from <= to && to <= bytes.len() {
        &bytes[from..to]
    } else {
        &[]
    }
}

/// Whether what was heard are links, with the packets that they should have: of the joined link those of its beginning
/// and those after the boundary, and of each link after it all.
pub fn are_right(
    alloc: Global,
    recorded: &[u8],
    heard: &[u8],
    at: &Joinable,
) -> Result<bool, AllocError> {
    let (Ok(whole), Ok(index)) = (Index::scan(alloc, recorded), Index::scan(alloc, heard)) else {
        return Ok(false);
    };
    let Some(first) = link_at(&whole, at.place.begin) else {
        return Ok(false);
    };
    if index.links().saturating_add(first) != whole.links() {
        return Ok(false);
    }
    for number in 0..index.links() {
        if !is_link_right(alloc, recorded, heard, at, &whole, &index, first, number)? {
            return Ok(false);
        }
    }
    Ok(true)
}

/// The number of the link that begins here.
fn link_at(index: &Index, start: u64) -> Option<u32> {
    for number in 0..index.links() {
        if index.link(number)?.start == start {
            return Some(number);
        }
    }
    None
}

fn is_link_right(
    alloc: Global,
    recorded: &[u8],
    heard: &[u8],
    at: &Joinable,
    whole: &Index,
    index: &Index,
    first: u32,
    number: u32,
) -> Result<bool, AllocError> {
    let (Some(old), Some(new)) = (whole.link(first.saturating_add(number)), index.link(number))
    else {
        return Ok(false);
    };
    let (Some(olds), Some(news)) = (
        whole.streams(first.saturating_add(number)),
        index.streams(number),
    ) else {
        return Ok(false);
    };
    if olds.len() != news.len() {
        return Ok(false);
    }
    let link = part(recorded, old.start, old.start.saturating_add(old.length));
    let own = part(heard, new.start, new.start.saturating_add(new.length));
    for (old, new) in olds.iter().zip(news) {
        if old.serial != new.serial || old.ended != new.ended {
            return Ok(false);
        }
        let all = digests(alloc, link, old.serial)?;
        let got = digests(alloc, own, new.serial)?;
        let same = if number == 0 {
            let begun = digests(
                alloc,
                part(recorded, at.place.begin, at.place.begun),
                old.serial,
            )?
            .len();
            let passed = digests(
                alloc,
                part(recorded, at.place.begin, at.place.boundary),
                old.serial,
            )?
            .len();
            has_both(&all, &got, begun, passed)
        } else {
            got.as_slice() == all.as_slice()
        };
        if !same {
            return Ok(false);
        }
    }
    Ok(true)
}

/// Whether the digests are the first of all, and those after the ones that were passed.
fn has_both(all: &[u64], got: &[u64], begun: usize, passed: usize) -> bool {
    if begun > passed || passed > all.len() || begun > got.len() {
        return false;
    }
    got[..begun] == all[..begun] && got[begun..] == all[passed..]
}
