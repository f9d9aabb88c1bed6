//! One packet.
ghost use Rattle.std.specs.Prelude.{◌≡◌, ◌<◌, ◌≤◌, ◌↔◌, [], length, slice_index, IsTrue, IsSome, IfSome, OnOk, OnErr};
ghost use Rattle.std.specs.Io.KnownBytes.{Appends};
ghost use Rattle.ogg_page.specs.Output.{WritesPart};
ghost use Rattle.packet_view.specs.Packets.{joined_parts};
ghost use Rattle.packet_view.specs.Packet.{ArePages, parts_of, slices_of};

use crate::joining::{are_bytes, byte_at, write_parts};
use crate::parts::Parts;
use ogg_page::WriteFault;
use std::io::Write;
use std::marker::Model;

/// A packet in borrowed bytes: its parts, one for each page that has bytes of it. Nothing is copied,
/// and no call takes memory.
#[derive(Debug, Drop)]
pub struct Packet<'a> {
    /// The bytes in the page in which the packet begins, and their place in the source.
    first: &'a [u8],
    place: u64,
    /// The pages after that one, up to the page in which the packet ends, and their place.
    more: &'a [u8],
    offset: u64,
    serial: u32,
    len: usize,
    position: Option<u64>,
}

impl<'a> Model for Packet<'a> {
    ghost use Rattle.packet_view.specs.Packets.{PacketParts};

    ghost Value = { PacketParts };

    ghost use Rattle.packet_view.specs.Packet.{parts_of};
    ghost use Rattle.packet_view.specs.Whole.{IsWhole};

    ghost view = { λ p. record { parts = parts_of p.place p.first.now p.serial p.offset p.more.now; position = p.position } };

    ghost invariant = { IsWhole };
}

impl<'a> Packet<'a> {
    pub(crate) fn new(
        first: &'a [u8],
        place: u64,
        more: &'a [u8],
        offset: u64,
        serial: u32,
        len: usize,
        position: Option<u64>,
    ) -> Packet<'a>
        requires size { len ≡ length (joined_parts (parts_of place first.now serial offset more.now)) }
        requires pages { ArePages more.now }
        requires begins { first.now ≡ [] → more.now ≡ [] }
        ensures { result ≡ record { parts = parts_of place first.now serial offset more.now; position = position } }
    {
        Packet {
            first,
            place,
            more,
            offset,
            serial,
            len,
            position,
        }
    }

    /// How many bytes the packet has.
    pub fn len(&self) -> usize
        ensures { result ≡ length (joined_parts self.now.parts) }
    {
        self.len
    }

    /// The packet's parts, in order. None is empty, so an empty packet has none.
    pub fn parts(&self) -> Parts<'a>
        ensures { result ≡ slices_of self.now.parts }
    {
        Parts::new(self.first, self.serial, self.more)
    }

    /// The packet's bytes, if it has at most one part.
    pub fn as_slice(&self) -> Option<&'a [u8]>
        ensures some { IsSome result ↔ (length self.now.parts ≤ 1) }
        ensures bytes { IfSome result (λ bytes. bytes.now ≡ joined_parts self.now.parts) }
    {
        if self.first.len() == self.len {
            Some(self.first)
        } else {
            None
        }
    }

    /// The packet's byte at this index.
    pub fn byte_at(&self, index: usize) -> u8
        requires { index < length (joined_parts self.now.parts) }
        ensures { result ≡ slice_index (joined_parts self.now.parts) index }
    {
        byte_at(self.parts(), index)
    }

    /// Whether the packet's bytes are these.
    pub fn same_as(&self, bytes: &[u8]) -> bool
        ensures { IsTrue result ↔ (joined_parts self.now.parts ≡ bytes.now) }
    {
        are_bytes(self.parts(), bytes)
    }

    /// Writes the packet's bytes, in order. After a fault not all of them were written, but a part from
    /// their front.
    pub fn write_to<W: Write>(&self, writer: &mut W) -> Result<(), WriteFault>
        ensures ok { OnOk result (Appends (W.contents writer.old) (W.contents writer.new) (joined_parts self.now.parts)) }
        ensures err { OnErr result (WritesPart (W.contents writer.old) (W.contents writer.new) (joined_parts self.now.parts)) }
    {
        write_parts(self.parts(), writer)
    }

    /// The position of the page in which the packet ends, if no packet ends there after it and the
    /// page has one.
    pub fn position(&self) -> Option<u64>
        ensures { result ≡ self.now.position }
    {
        self.position
    }
}
