//! A link is written anew, so that players stop at the right sample.
ghost use Rattle.std.specs.Prelude.{◌≡◌, ◌≢◌, ◌↔◌, ◌⊎◌, ◌≤◌, ◌<◌, ◌^◌, ◌-◌, List, [], Some, None, Err, OnOk, OnErr, IfOk, IfErr, length, map, slice_get};
ghost use Rattle.std.specs.Io.KnownBytes.{Appends};
ghost use Rattle.std.specs.List.{flat_map};
ghost use Rattle.ogg_page.specs.Output.{WritesPrefix};
ghost use Rattle.ogg_page.specs.Page.{Page as PageValue, bytes_of_pages};
ghost use Rattle.ogg_page.specs.Window.{KeepsSource, HasFailed};
ghost use Rattle.ogg_split.specs.Asked.{AreIndexed};
ghost use Rattle.ogg_split.specs.Copying.{IsCopy};
ghost use Rattle.ogg_finish.specs.Ends.{ends_after, finished_by, without_pages};
ghost use Rattle.ogg_finish.specs.Finishing.{finished_link, finished_links};
ghost use Rattle.link_chain.specs.Limits.{most_streams};

use crate::fault::FinishFault;
use crate::passes::{find_ends, write_finished};
use crate::stream_end::StreamEnd;
use arrayvec::ArrayVec;
use link_chain::MOST_STREAMS;
use link_index::{Index, StreamInfo};
use ogg_page::{PageBuffer, PageSource, Window};
use ogg_split::seek_link;
use std::io::Write;

/// Writes the link with this number, counted from 0, finished, and returns how many bytes it has then. The source's
/// bytes begin with those that the index is of. The link is read twice, a page at a time. A page whose mark changes is
/// made anew in the buffer, and every other page is written as it stands. The range of the window is left where the
/// writing ended. No memory is taken.
///
/// The faults are `NoLink`, after which nothing is written; `Source`, if a read failed or returned no good page; and
/// `Write`. After `Source` and `Write` a prefix of the finished pages was written.
pub fn finish_link<S: PageSource, W: Write>(
    window: &mut Window<S>,
    index: &Index,
    link: u32,
    buffer: &mut PageBuffer,
    out: &mut W,
) -> Result<u64, FinishFault>
    ensures written { (links : List (List PageValue)) (pages : List PageValue) → S.is_honest window.old.source
        → AreIndexed links index.now (S.bytes window.old.source) → slice_get links link ≡ Some pages
        → IsCopy (W.contents out.old) (W.contents out.new) (bytes_of_pages (finished_link pages)) result }

    // Which fault, and when.
    ensures no_link { (result ≡ Err FinishFault.NoLink) ↔ (length index.now.entries ≤ link) }
    ensures nothing { result ≡ Err FinishFault.NoLink → Appends (W.contents out.old) (W.contents out.new) [] }
    ensures cause { (links : List (List PageValue)) → S.is_honest window.old.source
        → AreIndexed links index.now (S.bytes window.old.source) → result ≡ Err FinishFault.Source
        → HasFailed (S.failures window.old.source) (S.failures window.new.source) }

    // What the call leaves of the source.
    ensures later { S.failures window.old.source ≤ S.failures window.new.source }
    ensures source { KeepsSource S.bytes S.is_honest S.size S.only_reads window.old.source window.new.source }
{
    match index.streams(link) {
        Some(streams) => match find_link_ends(window, index, link, streams) {
            Ok(ends) => write_link(window, index, link, ends.as_slice(), buffer, out),
            Err(fault) => Err(fault),
        },
        None => Err(FinishFault::NoLink),
    }
}

/// Writes all links of a file, finished, as [`finish_link`] does, in turn. The source's bytes begin with those that
/// the index is of. No memory is taken.
///
/// The faults are `Source` and `Write`, after which a prefix of the finished pages was written.
pub fn finish_file<S: PageSource, W: Write>(
    window: &mut Window<S>,
    index: &Index,
    buffer: &mut PageBuffer,
    out: &mut W,
) -> Result<(), FinishFault>
    ensures written { (links : List (List PageValue)) → S.is_honest window.old.source
        → AreIndexed links index.now (S.bytes window.old.source)
        → OnOk result (Appends (W.contents out.old) (W.contents out.new) (flat_map bytes_of_pages (finished_links links))) }
    ensures prefix { (links : List (List PageValue)) → S.is_honest window.old.source
        → AreIndexed links index.now (S.bytes window.old.source)
        → OnErr result (WritesPrefix (W.contents out.old) (W.contents out.new) (flat_map bytes_of_pages (finished_links links))) }

    // Which fault, and when.
    ensures there { result ≢ Err FinishFault.NoLink }
    ensures cause { (links : List (List PageValue)) → S.is_honest window.old.source
        → AreIndexed links index.now (S.bytes window.old.source) → result ≡ Err FinishFault.Source
        → HasFailed (S.failures window.old.source) (S.failures window.new.source) }

    // What the call leaves of the source.
    ensures later { S.failures window.old.source ≤ S.failures window.new.source }
    ensures source { KeepsSource S.bytes S.is_honest S.size S.only_reads window.old.source window.new.source }
{
    for link in 0..index.links() {
        match finish_link(window, index, link, buffer, out) {
            Ok(_) => {}
            Err(fault) => return Err(fault),
        }
    }
    Ok(())
}

/// Reads all of the link's pages, and notes the ends of the streams, which are the link's.
fn find_link_ends<S: PageSource>(
    window: &mut Window<S>,
    index: &Index,
    link: u32,
    streams: &[StreamInfo],
) -> Result<ArrayVec<StreamEnd, MOST_STREAMS>, FinishFault>
    requires here { link < length index.now.entries }
    ensures found { (links : List (List PageValue)) (pages : List PageValue) → S.is_honest window.old.source
        → AreIndexed links index.now (S.bytes window.old.source) → slice_get links link ≡ Some pages
        → IfOk result (λ ends. ends.items ≡ ends_after pages (map without_pages streams.now)) }
    ensures cause { (links : List (List PageValue)) → S.is_honest window.old.source
        → AreIndexed links index.now (S.bytes window.old.source) → length streams.now ≤ most_streams → OnErr result
        (HasFailed (S.failures window.old.source) (S.failures window.new.source)) }
    ensures err { IfErr result (λ fault. fault ≡ FinishFault.Source) }
    ensures later { S.failures window.old.source ≤ S.failures window.new.source }
    ensures source { KeepsSource S.bytes S.is_honest S.size S.only_reads window.old.source window.new.source }
{
    // A link has no more streams.
    if streams.len() > MOST_STREAMS {
        return Err(FinishFault::Source);
    }
    let mut ends = ends_of(streams);
    match seek_link(window, index, link) {
        Ok(()) => match find_ends(window, ends.as_mut_slice()) {
            Ok(()) => Ok(ends),
            Err(fault) => Err(fault),
        },
        Err(_) => Err(FinishFault::Source),
    }
}

/// Writes the link's pages, finished by what is known of their streams.
fn write_link<S: PageSource, W: Write>(
    window: &mut Window<S>,
    index: &Index,
    link: u32,
    ends: &[StreamEnd],
    buffer: &mut PageBuffer,
    out: &mut W,
) -> Result<u64, FinishFault>
    requires here { link < length index.now.entries }
    ensures written { (links : List (List PageValue)) (pages : List PageValue) → S.is_honest window.old.source
        → AreIndexed links index.now (S.bytes window.old.source) → slice_get links link ≡ Some pages
        → IsCopy (W.contents out.old) (W.contents out.new) (bytes_of_pages (finished_by ends.now pages)) result }
    ensures there { result ≢ Err FinishFault.NoLink }
    ensures cause { (links : List (List PageValue)) → S.is_honest window.old.source
        → AreIndexed links index.now (S.bytes window.old.source) → result ≡ Err FinishFault.Source
        → HasFailed (S.failures window.old.source) (S.failures window.new.source) }
    ensures later { S.failures window.old.source ≤ S.failures window.new.source }
    ensures source { KeepsSource S.bytes S.is_honest S.size S.only_reads window.old.source window.new.source }
{
    match seek_link(window, index, link) {
        Ok(()) => write_finished(window, ends, buffer, out),
        Err(_) => Err(FinishFault::Source),
    }
}

/// What is known of the streams before their first pages.
fn ends_of(streams: &[StreamInfo]) -> ArrayVec<StreamEnd, MOST_STREAMS>
    requires { length streams.now ≤ most_streams }
    ensures { result.items ≡ map without_pages streams.now }
{
    let mut ends = ArrayVec::new();
    for stream in streams {
        ends.push(StreamEnd {
            serial: stream.serial,
            ended: false,
            mark: None,
        });
    }
    ends
}
