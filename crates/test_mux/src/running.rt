//! Runs of feeds, and what is then read of the pages, as plain data.
use crate::records::{Record, append};
use feed_codec::RunFault;
use feed_mux::mux;
use packet_view::Packets;
use std::alloc::Global;
use std::test::Fail;

/// What a run leaves.
#[derive(Drop)]
pub struct Left {
    /// How many commands there were, and the length of the pages; or the fault.
    pub result: Result<(u64, u64), RunFault>,
    pub pages: Vec<u8>,
    /// The reply lines.
    pub replies: Vec<u8>,
}

/// Runs this feed.
pub fn run(alloc: Global, feed: &[u8]) -> Result<Left, Fail> {
    let mut feed = feed;
    let mut pages = Vec::new(alloc);
    let mut replies = Vec::new(alloc);
    let result = match mux(alloc, &mut feed, &mut pages, &mut replies) {
        Ok(tally) => Ok((tally.commands, tally.end)),
        Err(fault) => Err(fault),
    };
    Ok(Left {
        result,
        pages,
        replies,
    })
}

/// Runs the feed of these records.
pub fn run_of(alloc: Global, records: &[Record]) -> Result<Left, Fail> {
    let mut feed = Vec::new(alloc);
    for record in records {
        append(*record, &mut feed)?;
    }
    run(alloc, &feed)
}

/// Whether these bytes stand in the pages, each at its offset.
pub fn stand(pages: &[u8], found: &[(usize, &[u8])]) -> bool {
    for (at, bytes) in found {
        match pages.get(*at..) {
            Some(rest) => {
                if !rest.starts_with(bytes) {
                    return false;
                }
            }
            None => return false,
        }
    }
    true
}

/// A packet that was read: how long it is, in how many parts, and its position.
pub type ReadPacket = (usize, usize, Option<u64>);

/// The bytes of the first packet of the stream with this serial, if there is one in one part, and all packets up to
/// the sixteenth.
pub fn read(
    alloc: Global,
    pages: &[u8],
    serial: u32,
) -> Result<(Option<&[u8]>, Vec<ReadPacket>), Fail> {
    let mut packets = Packets::of(pages, serial);
    let mut first = None;
    let mut all = Vec::new(alloc);
    for _ in 0..16 {
        let Some(packet) = packets.next()? else {
            break;
        };
        if all.is_empty() {
            first = packet.as_slice();
        }
        let mut parts = 0usize;
        for _ in packet.parts() {
            parts = parts.saturating_add(1);
        }
        all.push((packet.len(), parts, packet.position()))?;
    }
    Ok((first, all))
}

/// The bytes of the second packet of the stream with this serial, if it has one part, and each part's length and
/// whether all its bytes are 7.
pub fn second(
    alloc: Global,
    pages: &[u8],
    serial: u32,
) -> Result<(Option<&[u8]>, Vec<(usize, bool)>), Fail> {
    let mut packets = Packets::of(pages, serial);
    let _ = packets.next()?;
    let packet = packets.next()?.ok_or("no second packet")?;
    let mut parts = Vec::new(alloc);
    for part in packet.parts() {
        parts.push((part.len(), part.iter().all(|byte| *byte == 7)))?;
    }
    Ok((packet.as_slice(), parts))
}
