//! The packet of a stream in a Skeleton.
ghost use Rattle.std.specs.Prelude.{◌≡◌, List, [], ◌∷◌, ◌+◌, ◌-◌, ◌^◌, ◌≤◌, ◌<◌, ◌++◌, length, min, drop, codes, Some, IfOk, Ok, IsOkAnd, OnOk, OnErr, vec_len, vec_capacity};
ghost use Rattle.std.specs.List.{AllByRecursion, flat_map};
ghost use Rattle.std.specs.Result.{result_err};
ghost use Rattle.arrayvec.specs.ArrayVec.{array_vec_len};
ghost use Rattle.skeleton3.specs.Fields.{NamedValue, IsField, IsFieldValue, field_line, fields_of};
ghost use Rattle.skeleton3.specs.Fisbone.{Fisbone as FisboneValue, HoldsFisbone, IsFisbone, fisbone_of, fisbone_bytes, fisbone_bytes_with, fisbone_fault, fixed_part};
ghost use Rattle.skeleton3.specs.Sizes.{fixed_size, message_offset, longest_fisbone};

use crate::Memory;
use crate::fault::SkeletonFault;
use crate::field::Field;
use crate::fields::media_in;
use crate::message::MessageFields;
use arrayvec::ArrayVec;
use byteorder::{ByteOrder, LittleEndian};
use ogg_page::{take_fraction, take_i64, take_u8, take_u32};

/// How many bytes come before the message fields.
const FIXED: usize = 52;

/// How many bytes the longest packet has that is made without memory: those of the fixed part, a media type of 255
/// bytes, and 16 fields with a name of 64 bytes and a value of 255 bytes each.
const MOST: usize = 5_491;

const NAME: &[u8; 8] = b"fisbone\0";

/// Where the message fields begin, counted from the byte after the name.
const OFFSET: u32 = 44;

/// What a Skeleton says of a stream (Ogg Skeleton 3.0, "fisbone"). The media type lies in the bytes that
/// it was read from, or wherever the writer keeps it.
#[derive(Clone, Copy, Debug, PartialEq, Eq)]
pub struct Fisbone<'a> {
    /// The stream's serial.
    pub serial: u32,
    /// The number of the stream's header packets.
    pub headers: u32,
    /// Granules in a second: a numerator and a denominator.
    pub rate: (i64, i64),
    /// The granule position at which the stream begins.
    pub base_granule: i64,
    /// How many packets a decoder needs before the one that it shows.
    pub preroll: u32,
    /// How many low bits of a granule position count from the last key frame.
    pub shift: u8,
    /// The media type.
    pub media: &'a [u8],
}

impl<'a> Fisbone<'a> {
    /// Reads a packet. The media type is borrowed from it, and no memory is taken.
    pub fn read(packet: &'a [u8]) -> Result<Fisbone<'a>, SkeletonFault>
        // `read` accepts exactly the packets that have no fault; of any other it reports the first fault.
        ensures fault { result_err result ≡ fisbone_fault packet.now }
        // What is read is what the packet holds.
        ensures ok { IfOk result (λ fisbone. HoldsFisbone packet.now (fisbone_of fisbone)) }
        ensures each { (fisbone : FisboneValue) → IsFisbone fisbone
            → HoldsFisbone packet.now fisbone → IsOkAnd result (λ read. fisbone_of read ≡ fisbone) }
        // What is written is read as the same value.
        ensures written { (fisbone : FisboneValue) → IsFisbone fisbone → IsFieldValue fisbone.media
            → packet.now ≡ fisbone_bytes fisbone → IsOkAnd result (λ read. fisbone_of read ≡ fisbone) }
    {
        if packet.len() < FIXED {
            return Err(SkeletonFault::Length);
        }
        let (name, rest) = packet.split_at(8);
        if name != NAME.as_slice() {
            return Err(SkeletonFault::Name);
        }
        let (_offset, rest) = take_u32(rest);
        let (serial, rest) = take_u32(rest);
        let (headers, rest) = take_u32(rest);
        let (rate, rest) = take_fraction(rest);
        let (base_granule, rest) = take_i64(rest);
        let (preroll, rest) = take_u32(rest);
        let (shift, rest) = take_u8(rest);
        let (_padding, message) = rest.split_at(3);
        let Some(media) = media_in(message) else {
            return Err(SkeletonFault::Fields);
        };
        Ok(Fisbone {
            serial,
            headers,
            rate,
            base_granule,
            preroll,
            shift,
            media,
        })
    }

    /// How many bytes the packet has: 68, and those of the media type.
    #[tactic(auto, unfolding(crate::specs::Fisbone::fixed_part, ogg_page::specs::Numbers::u32_bytes, ogg_page::specs::Numbers::i64_bytes))]
    pub fn size(&self) -> u64
        ensures { result ≡ length (fisbone_bytes (fisbone_of self.now)) }
    {
        68 + self.media.len() as u64
    }

    /// Appends the packet, with the media type as its one message field. After `Memory` the vector is
    /// unchanged.
    pub fn write(&self, out: &mut Vec<u8>) -> Result<(), Memory>
        ensures ok { OnOk result (out.new.items ≡ out.old.items ++ fisbone_bytes (fisbone_of self.now)) }
        ensures err { OnErr result (out.new.items ≡ out.old.items) }
        ensures full { OnErr result
            (vec_capacity out.old < vec_len out.old + length (fisbone_bytes (fisbone_of self.now))) }
    {
        // The one step that can fail comes first.
        out.reserve(self.size() as usize)?;
        append(out, &self.fixed_part());
        append(out, b"Content-Type: ");
        append(out, self.media);
        append(out, b"\r\n");
        Ok(())
    }

    /// How many bytes the packet has with these message fields after the media type's.
    pub fn size_with(&self, fields: &[Field]) -> u64
        requires { length (fisbone_bytes_with fields.now (fisbone_of self.now)) ≤ 2 ^ 62 }
        ensures { result ≡ length (fisbone_bytes_with fields.now (fisbone_of self.now)) }
    {
        self.capped_size(fields) as u64
    }

    /// Appends the packet, with the media type as its first message field and these after it, in order.
    /// After `Memory` the vector is unchanged.
    pub fn write_with(&self, fields: &[Field], out: &mut Vec<u8>) -> Result<(), Memory>
        ensures ok { OnOk result
            (out.new.items ≡ out.old.items ++ fisbone_bytes_with fields.now (fisbone_of self.now)) }
        ensures err { OnErr result (out.new.items ≡ out.old.items) }
        ensures full { OnErr result (vec_capacity out.old
            < vec_len out.old + length (fisbone_bytes_with fields.now (fisbone_of self.now))) }
    {
        // The one step that can fail comes first.
        out.reserve(self.capped_size(fields))?;
        append(out, &self.fixed_part());
        append(out, b"Content-Type: ");
        append(out, self.media);
        append(out, b"\r\n");
        append_fields(fields, out);
        Ok(())
    }

    /// The packet with these message fields after the media type's, if it has at most 5,491 bytes. A packet with a
    /// media type of 255 bytes and 16 fields with names of 64 and values of 255 bytes has that many. No memory is
    /// taken.
    pub fn packet_with(&self, fields: &[Field]) -> ArrayVec<u8, MOST>
        requires { length (fisbone_bytes_with fields.now (fisbone_of self.now)) ≤ longest_fisbone }
        ensures { result.items ≡ fisbone_bytes_with fields.now (fisbone_of self.now) }
    {
        let mut packet = ArrayVec::new();
        push(&mut packet, &self.fixed_part());
        push(&mut packet, b"Content-Type: ");
        push(&mut packet, self.media);
        push(&mut packet, b"\r\n");
        push_fields(fields, &mut packet);
        packet
    }

    /// The message fields of a packet, in order, the media type's among them. The fields are borrowed from the packet,
    /// and no memory is taken.
    pub fn message(packet: &'a [u8]) -> Result<MessageFields<'a>, SkeletonFault>
        // `message` accepts exactly the packets that `read` accepts; of any other it reports the same fault.
        ensures fault { result_err result ≡ fisbone_fault packet.now }
        // The fields are those of the bytes after the first 52.
        ensures fields { IfOk result (λ fields. fields_of (drop fixed_size packet.now) ≡ Some fields) }
        // What was written is read as the same media type and fields.
        ensures written { (fisbone : FisboneValue) (fields : List NamedValue) → IsFieldValue fisbone.media
            → AllByRecursion IsField fields → packet.now ≡ fisbone_bytes_with fields fisbone
            → IsOkAnd result (λ read. read ≡ (codes "Content-Type", fisbone.media) ∷ fields) }
    {
        Fisbone::read(packet)?;
        let (_, message) = packet.split_at(FIXED);
        Ok(MessageFields::of(message))
    }

    /// How many bytes the packet has with these fields, or the greatest `usize` if that is less.
    fn capped_size(&self, fields: &[Field]) -> usize
        ensures { result ≡ min (length (fisbone_bytes_with fields.now (fisbone_of self.now))) (2 ^ 64 - 1) }
    {
        let mut size = self.size() as usize;
        for field in fields {
            size = size.saturating_add(size_of_field(field));
        }
        size
    }

    #[tactic(auto, unfolding(crate::specs::Fisbone::fixed_part, ogg_page::specs::Numbers::u32_bytes, ogg_page::specs::Numbers::i64_bytes))]
    fn fixed_part(&self) -> [u8; FIXED]
        ensures { result ≡ fixed_part message_offset (0 ∷ 0 ∷ 0 ∷ []) (fisbone_of self.now) }
    {
        let mut bytes = [0; FIXED];
        bytes[..8].copy_from_slice(NAME);
        LittleEndian::write_u32(&mut bytes[8..], OFFSET);
        LittleEndian::write_u32(&mut bytes[12..], self.serial);
        LittleEndian::write_u32(&mut bytes[16..], self.headers);
        LittleEndian::write_i64(&mut bytes[20..], self.rate.0);
        LittleEndian::write_i64(&mut bytes[28..], self.rate.1);
        LittleEndian::write_i64(&mut bytes[36..], self.base_granule);
        LittleEndian::write_u32(&mut bytes[44..], self.preroll);
        bytes[48] = self.shift;
        bytes
    }
}

/// How many bytes the line of a field has, or the greatest `usize` if that is less.
fn size_of_field(field: &Field) -> usize
    ensures { result ≡ min (length (field_line field.now)) (2 ^ 64 - 1) }
{
    field
        .name()
        .len()
        .saturating_add(field.value().len())
        .saturating_add(4)
}

/// Appends the lines of these fields; there is room for them.
fn append_fields(fields: &[Field], out: &mut Vec<u8>)
    requires { vec_len out.old + length (flat_map field_line fields.now) ≤ vec_capacity out.old }
    ensures { out.new.items ≡ out.old.items ++ flat_map field_line fields.now }
{
    for field in fields {
        append_field(field, out);
    }
}

/// Appends the line of this field; there is room for it.
fn append_field(field: &Field, out: &mut Vec<u8>)
    requires { vec_len out.old + length (field_line field.now) ≤ vec_capacity out.old }
    ensures items { out.new.items ≡ out.old.items ++ field_line field.now }
    ensures len { vec_len out.new ≡ vec_len out.old + length (field_line field.now) }
    ensures capacity { vec_capacity out.old ≤ vec_capacity out.new }
{
    append(out, field.name());
    append(out, b": ");
    append(out, field.value());
    append(out, b"\r\n");
}

/// Appends the lines of these fields; the packet has room for them.
fn push_fields(fields: &[Field], packet: &mut ArrayVec<u8, MOST>)
    requires { array_vec_len packet.old + length (flat_map field_line fields.now) ≤ longest_fisbone }
    ensures { packet.new.items ≡ packet.old.items ++ flat_map field_line fields.now }
{
    for field in fields {
        push_field(field, packet);
    }
}

/// Appends the line of this field; the packet has room for it.
fn push_field(field: &Field, packet: &mut ArrayVec<u8, MOST>)
    requires { array_vec_len packet.old + length (field_line field.now) ≤ longest_fisbone }
    ensures items { packet.new.items ≡ packet.old.items ++ field_line field.now }
    ensures len { array_vec_len packet.new ≡ array_vec_len packet.old + length (field_line field.now) }
{
    push(packet, field.name());
    push(packet, b": ");
    push(packet, field.value());
    push(packet, b"\r\n");
}

/// Appends these bytes; there is room for them.
fn append(out: &mut Vec<u8>, bytes: &[u8])
    requires { vec_len out.old + length bytes.now ≤ vec_capacity out.old }
    ensures items { out.new.items ≡ out.old.items ++ bytes.now }
    ensures len { vec_len out.new ≡ vec_len out.old + length bytes.now }
    ensures capacity { vec_capacity out.old ≤ vec_capacity out.new }
{
    out.extend_from_slice(bytes).unwrap();
}

/// Appends these bytes; the packet has room for them.
fn push(packet: &mut ArrayVec<u8, MOST>, bytes: &[u8])
    requires { array_vec_len packet.old + length bytes.now ≤ longest_fisbone }
    ensures items { packet.new.items ≡ packet.old.items ++ bytes.now }
    ensures len { array_vec_len packet.new ≡ array_vec_len packet.old + length bytes.now }
{
    packet.try_extend_from_slice(bytes).unwrap();
}
