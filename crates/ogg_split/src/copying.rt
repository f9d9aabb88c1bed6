//! Copies out of a file that lies in memory.
ghost use Rattle.std.specs.Prelude.{◌≡◌, ◌≢◌, ◌↔◌, ◌⊎◌, ◌≤◌, List, [], Some, Err, IfOk, OnErr, length, slice_get};
ghost use Rattle.std.specs.Io.KnownBytes.{Appends};
ghost use Rattle.ogg_page.specs.Page.{Page as PageValue, bytes_of_pages};
ghost use Rattle.link_chain.specs.Links.{pages_with};
ghost use Rattle.packet_view.specs.Packets.{packets_of};
ghost use Rattle.ogg_split.specs.Asked.{AreIndexed, LacksStream};
ghost use Rattle.ogg_split.specs.Copying.{IsCopy, IsThere};
ghost use Rattle.ogg_split.specs.Unfinished.{IsUnfinishedAtMost};

use crate::fault::SplitFault;
use crate::finding::{bytes_of_link, find_link, find_stream};
use crate::walking::copy_pages;
use link_index::Index;
use ogg_page::write_whole;
use packet_view::{Packets, packets_are_held};
use std::io::Write;

/// Writes the pages of the link with this number, counted from 0, as they stand in the file's bytes, and returns how
/// many bytes they have. The bytes begin with those that the index is of. No memory is taken.
///
/// The faults are `NoLink`, after which nothing is written, and `Write`, after which a prefix of the pages was
/// written. `Source` comes only if the bytes don't go as far as the index does, and nothing is written then.
pub fn copy_link<W: Write>(
    bytes: &[u8],
    index: &Index,
    link: u32,
    out: &mut W,
) -> Result<u64, SplitFault>
    ensures copied { (links : List (List PageValue)) (pages : List PageValue) → AreIndexed links index.now bytes.now
        → slice_get links link ≡ Some pages → IsCopy (W.contents out.old) (W.contents out.new) (bytes_of_pages pages) result }

    // Which fault, and when.
    ensures no_link { (result ≡ Err SplitFault.NoLink) ↔ (length index.now.entries ≤ link) }
    ensures no_stream { result ≢ Err SplitFault.NoStream }
    ensures no_source { (links : List (List PageValue)) → AreIndexed links index.now bytes.now → result ≢ Err SplitFault.Source }
    ensures nothing { (result ≡ Err SplitFault.NoLink) ⊎ (result ≡ Err SplitFault.Source)
        → Appends (W.contents out.old) (W.contents out.new) [] }
{
    match find_link(index, link) {
        Ok(found) => match bytes_of_link(bytes, found) {
            Ok(own) => copy_bytes(own, out),
            Err(fault) => Err(fault),
        },
        Err(fault) => Err(fault),
    }
}

/// Writes the pages of the stream with this serial in the link with this number, as they stand in the file's bytes,
/// each by itself, and returns how many bytes they have. The bytes begin with those that the index is of. No memory is
/// taken.
///
/// The faults are `NoLink` and `NoStream`, after which nothing is written, and `Write`, after which a prefix of the
/// pages was written. `Source` comes only if the bytes aren't those of the index; a prefix may be written then.
pub fn copy_stream<W: Write>(
    bytes: &[u8],
    index: &Index,
    link: u32,
    serial: u32,
    out: &mut W,
) -> Result<u64, SplitFault>
    ensures copied { (links : List (List PageValue)) (pages : List PageValue) → AreIndexed links index.now bytes.now
        → slice_get links link ≡ Some pages
        → IsCopy (W.contents out.old) (W.contents out.new) (bytes_of_pages (pages_with serial pages)) result }

    // Which fault, and when.
    ensures no_link { (result ≡ Err SplitFault.NoLink) ↔ (length index.now.entries ≤ link) }
    ensures no_stream { (result ≡ Err SplitFault.NoStream) ↔ LacksStream index.now.entries link serial }
    ensures no_source { (links : List (List PageValue)) → AreIndexed links index.now bytes.now → result ≢ Err SplitFault.Source }
    ensures nothing { (result ≡ Err SplitFault.NoLink) ⊎ (result ≡ Err SplitFault.NoStream)
        → Appends (W.contents out.old) (W.contents out.new) [] }
{
    match find_stream(index, link, serial) {
        Ok(found) => match bytes_of_link(bytes, found) {
            Ok(own) => copy_pages(own, serial, out),
            Err(fault) => Err(fault),
        },
        Err(fault) => Err(fault),
    }
}

/// The packets of the stream with this serial in the link with this number, lent out of the file's bytes. The bytes
/// begin with those that the index is of. A fault follows the packets only if the last one is unfinished. No memory is
/// taken.
///
/// The faults are `NoLink` and `NoStream`; `Source` comes only if the bytes don't go as far as the index does.
pub fn packets_of<'a>(
    bytes: &'a [u8],
    index: &Index,
    link: u32,
    serial: u32,
) -> Result<Packets<'a>, SplitFault>
    ensures packets { (links : List (List PageValue)) (pages : List PageValue) → AreIndexed links index.now bytes.now
        → slice_get links link ≡ Some pages → IfOk result (λ packets. packets ≡ packets_of serial (bytes_of_pages pages)) }
    ensures unfinished { (links : List (List PageValue)) → AreIndexed links index.now bytes.now
        → IfOk result (λ packets. IsUnfinishedAtMost packets.fault) }

    // Which fault, and when.
    ensures no_link { (result ≡ Err SplitFault.NoLink) ↔ (length index.now.entries ≤ link) }
    ensures no_stream { (result ≡ Err SplitFault.NoStream) ↔ LacksStream index.now.entries link serial }
    ensures no_source { (links : List (List PageValue)) → AreIndexed links index.now bytes.now → result ≢ Err SplitFault.Source }
    ensures no_write { result ≢ Err SplitFault.Write }
{
    match find_stream(index, link, serial) {
        Ok(found) => match bytes_of_link(bytes, found) {
            Ok(own) => {
                // For the proof alone.
                packets_are_held();
                Ok(Packets::of(own, serial))
            }
            Err(fault) => Err(fault),
        },
        Err(fault) => Err(fault),
    }
}

/// Writes all of the bytes.
fn copy_bytes<W: Write>(bytes: &[u8], out: &mut W) -> Result<u64, SplitFault>
    ensures copied { IsCopy (W.contents out.old) (W.contents out.new) bytes.now result }
    ensures there { IsThere result }
    ensures err { OnErr result (result ≡ Err SplitFault.Write) }
{
    match write_whole(out, bytes) {
        Ok(()) => Ok(bytes.len() as u64),
        Err(_) => Err(SplitFault::Write),
    }
}
