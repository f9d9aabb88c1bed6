//! The parts of a packet as one list of bytes.
ghost use Rattle.std.specs.Prelude.{◌≡◌, ◌<◌, ◌↔◌, IsTrue, OnOk, OnErr, length, slice_index};
ghost use Rattle.std.specs.List.{concat};
ghost use Rattle.std.specs.Io.KnownBytes.{Appends};
ghost use Rattle.ogg_page.specs.Output.{WritesPart};

use crate::parts::Parts;
use ogg_page::{WriteFault, write_whole};
use std::io::Write;

/// The byte at this index of all the bytes.
pub(crate) fn byte_at(parts: Parts<'_>, index: usize) -> u8
    requires { index < length (concat parts) }
    ensures { result ≡ slice_index (concat parts.entry) index }
{
    let mut parts = parts;
    let mut index = index;
    while let Some(part) = parts.next() {
        if index < part.len() {
            return part[index];
        }
        index -= part.len();
    }
    0
}

/// Writes all the bytes, in order.
pub(crate) fn write_parts<W: Write>(parts: Parts<'_>, writer: &mut W) -> Result<(), WriteFault>
    ensures ok { OnOk result (Appends (W.contents writer.old) (W.contents writer.new) (concat parts.entry)) }
    ensures err { OnErr result (WritesPart (W.contents writer.old) (W.contents writer.new) (concat parts.entry)) }
{
    let mut parts = parts;
    while let Some(part) = parts.next() {
        write_whole(writer, part)?;
    }
    Ok(())
}

/// Whether these are all the bytes.
pub(crate) fn are_bytes(parts: Parts<'_>, bytes: &[u8]) -> bool
    ensures { IsTrue result ↔ (concat parts.entry ≡ bytes.now) }
{
    let mut parts = parts;
    let mut left = bytes;
    while let Some(part) = parts.next() {
        match left.strip_prefix(part) {
            Some(rest) => left = rest,
            None => return false,
        }
    }
    left.is_empty()
}
