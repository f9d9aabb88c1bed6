//! Copies and packets out of a file that is read through a window.
ghost use Rattle.std.specs.Prelude.{◌≡◌, ◌≢◌, ◌↔◌, ◌⊎◌, ◌≤◌, ◌<◌, ◌^◌, ◌+◌, ◌-◌, List, [], false, None, Some, Err, length, slice_get};
ghost use Rattle.std.specs.Prelude.{IfOk, IfErr, IsOk, OnOk};
ghost use Rattle.std.specs.Io.KnownBytes.{Appends};
ghost use Rattle.std.specs.List.{AllByRecursion};
ghost use Rattle.ogg_page.specs.Page.{Page as PageValue, IsPage, bytes_of_pages};
ghost use Rattle.ogg_page.specs.Pages.{found_in};
ghost use Rattle.ogg_page.specs.Window.{KeepsSource, left_of, HasFailed};
ghost use Rattle.link_chain.specs.Links.{pages_with};
ghost use Rattle.link_index.specs.Index.{LinkEntry};
ghost use Rattle.packet_view.specs.Packets.{packets_of};
ghost use Rattle.packet_view.specs.Stream.{parts_left, stream};
ghost use Rattle.packet_view.specs.StreamParts.{AreTheirParts, at_start, parts_from};
ghost use Rattle.ogg_split.specs.Asked.{AreIndexed, LacksStream, StandsIn};
ghost use Rattle.ogg_split.specs.Copying.{IsCopy, IsThere};
ghost use Rattle.ogg_split.specs.LinkParts.{answer_of, window_of_link};
ghost use Rattle.ogg_split.specs.Unfinished.{IsUnfinishedAtMost};

use crate::fault::SplitFault;
use crate::finding::{find_link, find_stream};
use crate::piecewise::copy_bytes_of;
use crate::walking::copy_lent;
use link_index::{Index, LinkInfo};
use ogg_page::{PageSource, Window};
use packet_view::{Stream, packets_are_held, parts_are_of_the_packets};
use std::io::Write;

/// Writes the pages of the link with this number, counted from 0, as they stand in the window's source, and returns
/// how many bytes they have. The source's bytes begin with those that the index is of, so no page of them is checked
/// again. The range of the window is left empty. No memory is taken.
///
/// The faults are `NoLink`, after which nothing is written; `Source`, if a read failed or the source doesn't go as far
/// as the index does; and `Write`. After `Source` and `Write` a prefix of the pages was written.
pub fn copy_link_from<S: PageSource, W: Write>(
    window: &mut Window<S>,
    index: &Index,
    link: u32,
    out: &mut W,
) -> Result<u64, SplitFault>
    ensures copied { (links : List (List PageValue)) (pages : List PageValue) → S.is_honest window.old.source
        → AreIndexed links index.now (S.bytes window.old.source) → slice_get links link ≡ Some pages
        → IsCopy (W.contents out.old) (W.contents out.new) (bytes_of_pages pages) result }

    // Which fault, and when.
    ensures no_link { (result ≡ Err SplitFault.NoLink) ↔ (length index.now.entries ≤ link) }
    ensures no_stream { result ≢ Err SplitFault.NoStream }
    ensures nothing { result ≡ Err SplitFault.NoLink → Appends (W.contents out.old) (W.contents out.new) [] }
    ensures cause { (links : List (List PageValue)) → S.is_honest window.old.source
        → AreIndexed links index.now (S.bytes window.old.source) → result ≡ Err SplitFault.Source
        → HasFailed (S.failures window.old.source) (S.failures window.new.source) }

    // What the call leaves of the source.
    ensures later { S.failures window.old.source ≤ S.failures window.new.source }
    ensures source { KeepsSource S.bytes S.is_honest S.size S.only_reads window.old.source window.new.source }
{
    match find_link(index, link) {
        Ok(found) => copy_whole(window, found, out),
        Err(fault) => Err(fault),
    }
}

/// Writes the pages of the stream with this serial in the link with this number, as [`copy_link_from`] does. Another
/// fault is `NoStream`, if the link has no such stream; nothing is written then.
pub fn copy_stream_from<S: PageSource, W: Write>(
    window: &mut Window<S>,
    index: &Index,
    link: u32,
    serial: u32,
    out: &mut W,
) -> Result<u64, SplitFault>
    ensures copied { (links : List (List PageValue)) (pages : List PageValue) → S.is_honest window.old.source
        → AreIndexed links index.now (S.bytes window.old.source) → slice_get links link ≡ Some pages
        → IsCopy (W.contents out.old) (W.contents out.new) (bytes_of_pages (pages_with serial pages)) result }

    // Which fault, and when.
    ensures no_link { (result ≡ Err SplitFault.NoLink) ↔ (length index.now.entries ≤ link) }
    ensures no_stream { (result ≡ Err SplitFault.NoStream) ↔ LacksStream index.now.entries link serial }
    ensures nothing { (result ≡ Err SplitFault.NoLink) ⊎ (result ≡ Err SplitFault.NoStream)
        → Appends (W.contents out.old) (W.contents out.new) [] }
    ensures cause { (links : List (List PageValue)) → S.is_honest window.old.source
        → AreIndexed links index.now (S.bytes window.old.source) → result ≡ Err SplitFault.Source
        → HasFailed (S.failures window.old.source) (S.failures window.new.source) }

    // What the call leaves of the source.
    ensures later { S.failures window.old.source ≤ S.failures window.new.source }
    ensures source { KeepsSource S.bytes S.is_honest S.size S.only_reads window.old.source window.new.source }
{
    match find_stream(index, link, serial) {
        Ok(found) => copy_stream_of(window, found, serial, out),
        Err(fault) => Err(fault),
    }
}

/// The packets of the stream with this serial in the link with this number, part by part (RFC 3533, sections 5 and 6).
/// The window's range is set to the link's bytes, and the window is the stream's from now on. The source's bytes begin
/// with those that the index is of. Nothing is read, and no memory is taken.
///
/// The parts, joined from a first one to the next last one, are the packets of [`packets_of`](crate::packets_of). A
/// fault follows them only if the last packet is unfinished, or if a read fails.
///
/// The faults are `NoLink` and `NoStream`; `Source` comes only if the source doesn't go as far as the index does. With
/// a fault the window is given back, over the same source; its range may be another.
pub fn parts_of<S: PageSource>(
    window: Window<S>,
    index: &Index,
    link: u32,
    serial: u32,
) -> Result<Stream<S>, (SplitFault, Window<S>)>
    ensures made { IfOk result (λ made. (entry : LinkEntry) × (slice_get index.now.entries link ≡ Some entry)
        × (made ≡ stream (window_of_link window.source entry.info) serial)) }

    // The stream's parts are those of the link's pages.
    ensures parts { (links : List (List PageValue)) (pages : List PageValue) (entry : LinkEntry)
        → AreIndexed links index.now (S.bytes window.source) → slice_get links link ≡ Some pages
        → slice_get index.now.entries link ≡ Some entry
        → IfOk result (λ made.
        parts_left S.bytes made ≡ parts_from serial at_start false (found_in entry.info.start (bytes_of_pages pages))) }
    ensures packets { (links : List (List PageValue)) (pages : List PageValue)
        → AreIndexed links index.now (S.bytes window.source) → slice_get links link ≡ Some pages
        → IfOk result (λ made. AreTheirParts (packets_of serial (bytes_of_pages pages)) (parts_left S.bytes made)) }
    ensures unfinished { (links : List (List PageValue)) → AreIndexed links index.now (S.bytes window.source)
        → IfOk result (λ made. IsUnfinishedAtMost (parts_left S.bytes made).fault) }

    // Which fault, and when.
    ensures no_link { (answer_of result ≡ Err SplitFault.NoLink) ↔ (length index.now.entries ≤ link) }
    ensures no_stream { (answer_of result ≡ Err SplitFault.NoStream) ↔ LacksStream index.now.entries link serial }
    ensures no_source { (links : List (List PageValue)) → S.is_honest window.source → AreIndexed links index.now (S.bytes window.source)
        → answer_of result ≢ Err SplitFault.Source }
    ensures no_write { answer_of result ≢ Err SplitFault.Write }
    ensures back { IfErr result (λ given. given.1.source ≡ window.source) }
{
    let mut window = window;
    match find_stream(index, link, serial) {
        Ok(found) => match set_range(&mut window, found) {
            Ok(()) => {
                // For the proof alone.
                packets_are_held();
                parts_are_of_the_packets();
                Ok(Stream::of(window, serial))
            }
            Err(fault) => Err((fault, window)),
        },
        Err(fault) => Err((fault, window)),
    }
}

/// Sets the window's range to the link with this number, so that the window lends the link's pages from the first one
/// on. The source's bytes begin with those that the index is of. Nothing is read, and no memory is taken.
///
/// The faults are `NoLink`, and `Source`, which comes only if the source doesn't go as far as the index does. After
/// `NoLink` the window is as it was.
pub fn seek_link<S: PageSource>(
    window: &mut Window<S>,
    index: &Index,
    link: u32,
) -> Result<(), SplitFault>
    ensures pages { (links : List (List PageValue)) (pages : List PageValue) → AreIndexed links index.now (S.bytes window.old.source)
        → slice_get links link ≡ Some pages
        → OnOk result (AllByRecursion IsPage pages × ((left_of S.bytes window.new).bytes ≡ bytes_of_pages pages)) }
    ensures fresh { OnOk result (window.new.fault ≡ None) }
    ensures order { OnOk result ((window.new.at ≤ window.new.to) × (window.new.to < 2 ^ 64)) }

    // Which fault, and when.
    ensures no_link { (result ≡ Err SplitFault.NoLink) ↔ (length index.now.entries ≤ link) }
    ensures no_stream { result ≢ Err SplitFault.NoStream }
    ensures no_source { (links : List (List PageValue)) → S.is_honest window.old.source
        → AreIndexed links index.now (S.bytes window.old.source)
        → result ≢ Err SplitFault.Source }
    ensures no_write { result ≢ Err SplitFault.Write }
    ensures source { window.new.source ≡ window.old.source }
    ensures same { result ≡ Err SplitFault.NoLink → window.new ≡ window.old }
{
    let found = find_link(index, link)?;
    set_range(window, found)
}

/// Writes the link's bytes.
fn copy_whole<S: PageSource, W: Write>(
    window: &mut Window<S>,
    link: LinkInfo,
    out: &mut W,
) -> Result<u64, SplitFault>
    ensures copied { (pages : List PageValue) → S.is_honest window.old.source → StandsIn (S.bytes window.old.source) link pages
        → IsCopy (W.contents out.old) (W.contents out.new) (bytes_of_pages pages) result }
    ensures cause { (pages : List PageValue) → S.is_honest window.old.source → StandsIn (S.bytes window.old.source) link pages
        → result ≡ Err SplitFault.Source
        → HasFailed (S.failures window.old.source) (S.failures window.new.source) }
    ensures later { S.failures window.old.source ≤ S.failures window.new.source }
    ensures source { KeepsSource S.bytes S.is_honest S.size S.only_reads window.old.source window.new.source }
    ensures there { IsThere result }
{
    match set_range(window, link) {
        Ok(()) => copy_bytes_of(window.source_mut(), link.start, link.length, out),
        Err(fault) => Err(fault),
    }
}

/// Writes those of the link's pages that have the serial.
fn copy_stream_of<S: PageSource, W: Write>(
    window: &mut Window<S>,
    link: LinkInfo,
    serial: u32,
    out: &mut W,
) -> Result<u64, SplitFault>
    ensures copied { (pages : List PageValue) → S.is_honest window.old.source → StandsIn (S.bytes window.old.source) link pages
        → IsCopy (W.contents out.old) (W.contents out.new) (bytes_of_pages (pages_with serial pages)) result }
    ensures cause { (pages : List PageValue) → S.is_honest window.old.source → StandsIn (S.bytes window.old.source) link pages
        → result ≡ Err SplitFault.Source
        → HasFailed (S.failures window.old.source) (S.failures window.new.source) }
    ensures later { S.failures window.old.source ≤ S.failures window.new.source }
    ensures source { KeepsSource S.bytes S.is_honest S.size S.only_reads window.old.source window.new.source }
    ensures there { IsThere result }
{
    match set_range(window, link) {
        Ok(()) => copy_lent(window, serial, out),
        Err(fault) => Err(fault),
    }
}

/// Sets the window's range to the link's, if the source goes so far.
fn set_range<S: PageSource>(window: &mut Window<S>, link: LinkInfo) -> Result<(), SplitFault>
    ensures ok { OnOk result (window.new ≡ window_of_link window.old.source link) }
    ensures short { OnOk result (link.start + link.length < 2 ^ 64) }
    ensures inside { OnOk result (link.start + link.length ≤ S.size window.old.source) }
    ensures there { (pages : List PageValue) → S.is_honest window.old.source → StandsIn (S.bytes window.old.source) link pages
        → IsOk result }
    ensures err { IfErr result (λ fault. fault ≡ SplitFault.Source) }
    ensures same { window.new.source ≡ window.old.source }
{
    let end = window.source_mut().end();
    if link.start > end || link.length > end - link.start {
        return Err(SplitFault::Source);
    }
    window.set(link.start, link.start + link.length);
    Ok(())
}
