//! Memory of puts that were given back, for the next ones.
ghost use Rattle.std.specs.Prelude.{◌≡◌, ◌≤◌, ◌<◌, [], drop, length, slice_index, IfOk, OnErr, vec_len, vec_capacity};
ghost use Rattle.feed_codec.specs.Room.{rooms_of};

use ogg_command::{Entry, Listed, Memory, Put};
use std::alloc::Global;
use std::mem;

/// How many packets have their memory kept at most.
const MOST_KEPT: usize = 4096;

/// How many bytes of a packet's memory are kept at most. The memory of a longer packet isn't kept, so that a feed of
/// long packets holds no more than it needs.
const LONGEST_KEPT: usize = 4096;

/// Memory of puts that were given back.
#[derive(Debug, Drop)]
pub struct Spare {
    entries: Vec<Entry>,
    packets: Vec<Vec<u8>>,
}

impl Spare {
    /// Nothing is kept yet, and no memory is taken.
    pub fn new(alloc: Global) -> Self {
        Spare {
            entries: Vec::new(alloc),
            packets: Vec::new(alloc),
        }
    }

    /// Room for `count` entries.
    pub fn room_for(&mut self, alloc: Global, count: usize) -> Result<Vec<Entry>, Memory>
        ensures items { IfOk result (λ entries. entries.items ≡ []) }
        ensures len { IfOk result (λ entries. vec_len entries ≡ 0) }
        ensures room { IfOk result (λ entries. count ≤ vec_capacity entries) }
        ensures full { OnErr result (vec_capacity self.old.entries < count) }
        ensures packets { self.new.packets ≡ self.old.packets }
    {
        let mut entries = mem::replace(&mut self.entries, Vec::new(alloc));
        entries.clear();
        entries.reserve(count)?;
        Ok(entries)
    }

    /// A copy of a packet's bytes.
    pub fn packet_of(&mut self, alloc: Global, bytes: &[u8]) -> Result<Listed<u8>, Memory>
        ensures ok { IfOk result (λ packet. packet ≡ bytes.now) }
        ensures full { OnErr result (slice_index (rooms_of self.old.packets.items) 0 < length bytes.now) }
        ensures packets { rooms_of self.new.packets.items ≡ drop 1 (rooms_of self.old.packets.items) }
    {
        let mut packet = match self.packets.pop() {
            Some(packet) => packet,
            None => Vec::new(alloc),
        };
        packet.clear();
        packet.extend_from_slice(bytes)?;
        Ok(Listed::of(packet))
    }

    /// Keeps a put's memory, as far as there is room for it in the list.
    #[inline(always)]
    pub fn keep(&mut self, put: Put) {
        let mut entries = put.entries.into_vec();
        keep_packets(&mut self.packets, &mut entries);
        self.entries = entries;
    }
}

/// Takes the entries out, and keeps the memory of their packets. The first entry's memory is the last to be kept, and
/// so the first to be used again.
fn keep_packets(packets: &mut Vec<Vec<u8>>, entries: &mut Vec<Entry>) {
    for _ in 0..entries.len() {
        let Some(entry) = entries.pop() else {
            return;
        };
        let packet = entry.packet.into_vec();
        if packets.len() < MOST_KEPT && packet.capacity() <= LONGEST_KEPT {
            let _ = packets.push(packet);
        }
    }
}
