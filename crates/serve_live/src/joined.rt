//! The streams of a link that is joined.
ghost use Rattle.std.specs.Prelude.{◌≡◌, ◌+◌, ◌-◌, ◌^◌, ◌<◌, ◌≤◌, ◌++◌, ℕ, List, length, map, drop, IsErr, OnOk, OnErr, IfOk};
ghost use Rattle.std.specs.List.{AllByRecursion};
ghost use Rattle.ogg_page.specs.Page.{Page, IsPage, bytes_of_pages};
ghost use Rattle.ogg_page.specs.Window.{KeepsSource};
ghost use Rattle.serve_live.specs.Listening.{HasFailed};
ghost use Rattle.serve_live.specs.Joined.{as_of_now, name_between};
ghost use Rattle.serve_live.specs.Noting.{noted, stream_with};

use crate::names::StreamName;
use link_chain::StreamState;
use ogg_page::{Memory, PageSource, SourceFault};
use page_heads::{PageFacts, read_front};
use std::alloc::Global;

/// A stream of the link that is joined: at the link's beginning, and at the boundary where the listener joins.
#[derive(Clone, Copy, Debug, PartialEq, Eq)]
pub struct JoinedStream {
    pub serial: u32,
    /// One more than the number of its last page at the link's beginning.
    pub begun_next: u64,
    /// Whether it had ended then, as a Skeleton has.
    pub begun_ended: bool,
    /// One more than the number of its last page before the boundary.
    pub next: u64,
    /// The position that it has reached, if it had ended before the boundary.
    pub position: u64,
    /// Whether it had ended before the boundary.
    pub ended: bool,
}

/// Which pages of the link are looked at: those of its beginning, or those since the boundary.
#[derive(Clone, Copy, Debug, PartialEq, Eq)]
pub enum LinkPart {
    Beginning,
    Since,
}

/// The stream as all its pages leave it, before its pages are looked at.
fn as_of_now(state: &StreamState) -> JoinedStream
    ensures { result ≡ as_of_now state.now }
{
    JoinedStream {
        serial: state.serial,
        begun_next: 0,
        begun_ended: false,
        next: state.next_sequence,
        position: state.last_position,
        ended: state.ended,
    }
}

/// The streams as all their pages leave them.
pub fn streams_of_now(alloc: Global, states: &[StreamState]) -> Result<Vec<JoinedStream>, Memory>
    ensures streams { IfOk result (λ streams. streams.items ≡ map as_of_now states.now) }
    ensures full { OnErr result (0 < length states.now) }
{
    let mut streams = Vec::new(alloc);
    for state in states {
        streams.push(as_of_now(state))?;
    }
    Ok(streams)
}

/// The stream once a page of the link was looked at. A page at the beginning says what follows it; a page since the
/// boundary says that the stream went on there, and which numbers it had not yet.
fn stream_with(part: LinkPart, page: &PageFacts, stream: JoinedStream) -> JoinedStream
    ensures { result ≡ stream_with part page.now stream }
{
    if stream.serial != page.serial {
        return stream;
    }
    match part {
        LinkPart::Beginning => JoinedStream {
            begun_next: u64::from(page.number) + 1,
            begun_ended: stream.begun_ended || page.ends,
            ..stream
        },
        LinkPart::Since => JoinedStream {
            next: stream.next.min(u64::from(page.number)),
            ended: false,
            ..stream
        },
    }
}

/// Notes a page of the link.
fn note_page(part: LinkPart, page: &PageFacts, streams: &mut [JoinedStream])
    ensures { streams.new ≡ map (stream_with part page.now) streams.old }
{
    for stream in streams.iter_mut() {
        *stream = stream_with(part, page, *stream);
    }
}

/// Notes the pages between two places, of which the heads are read.
pub fn note_pages<S: PageSource>(
    source: &mut S,
    start: u64,
    end: u64,
    part: LinkPart,
    streams: &mut [JoinedStream],
) -> Result<(), SourceFault>
    ensures noted { (pages : List Page) (rest : List ℕ) → S.is_honest source.old → AllByRecursion IsPage pages
        → drop start (S.bytes source.old) ≡ bytes_of_pages pages ++ rest → start + length (bytes_of_pages pages) ≡ end
        → OnOk result (streams.new ≡ map (noted part pages) streams.old) }
    ensures cause { (pages : List Page) (rest : List ℕ) → S.is_honest source.old → AllByRecursion IsPage pages
        → drop start (S.bytes source.old) ≡ bytes_of_pages pages ++ rest → start + length (bytes_of_pages pages) ≡ end
        → IsErr result → HasFailed (S.failures source.old) (S.failures source.new) }
    ensures later { S.failures source.old ≤ S.failures source.new }
    ensures source { KeepsSource S.bytes S.is_honest S.size S.only_reads source.old source.new }
{
    let mut place = start;
    'pages: while place < end {
        match read_front(source, place) {
            Ok(front) => {
                note_page(part, &front.facts, streams);
                place += front.facts.size;
            }
            Err(fault) => return Err(fault),
        }
    }
    Ok(())
}

/// The stream is heard without the numbers of the pages that were passed.
fn name_between(stream: &JoinedStream) -> StreamName
    ensures { result ≡ name_between stream.now }
{
    StreamName {
        serial: stream.serial,
        name: stream.serial,
        less: stream.next.saturating_sub(stream.begun_next),
        more: 0,
    }
}

/// How the streams are heard.
pub fn names_of(alloc: Global, streams: &[JoinedStream]) -> Result<Vec<StreamName>, Memory>
    ensures names { IfOk result (λ names. names.items ≡ map name_between streams.now) }
    ensures full { OnErr result (0 < length streams.now) }
{
    let mut names = Vec::new(alloc);
    for stream in streams {
        names.push(name_between(stream))?;
    }
    Ok(names)
}
