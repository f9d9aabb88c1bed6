//! What the heads of a file's pages leave of the streams of its last link.
ghost use Rattle.std.specs.Prelude.{◌≡◌, ◌≢◌, ◌≤◌, ◌<◌, ◌+◌, ◌++◌, ◌^◌, ℕ, List, Err, Some, length, drop, IfOk, IsErr, OnOk, OnErr};
ghost use Rattle.ogg_page.specs.Head.{Stands};
ghost use Rattle.ogg_page.specs.Lacing.{ends_open};
ghost use Rattle.ogg_page.specs.Page.{Page, IsPage, bytes_of_pages, page_bytes, page_size};
ghost use Rattle.ogg_page.specs.Window.{KeepsSource};
ghost use Rattle.link_chain.specs.Progress.{change_at};
ghost use Rattle.page_heads.specs.Fronts.{IsFrontOf};
ghost use Rattle.serve_live.specs.Listening.{HasFailed};
ghost use Rattle.archive_cut.specs.Heads.{StandUpTo, begun_by, continued_by, entered_by, followed_by, said_of, streams_after, streams_by, up_to_first};

use crate::fault::CutFault;
use link_chain::{POSITIONS, StreamState, is_open};
use ogg_page::{FIRST, FIXED_SIZE, FULL_VALUE, LAST, PageSource, SourceFault, read_header};
use page_heads::{PageFront, read_front};

/// What a page's head says of its stream.
#[derive(Clone, Copy, Debug, PartialEq, Eq)]
pub struct Said {
    /// Whether it is the stream's first page.
    pub begins: bool,
    /// Whether it is the stream's last page.
    pub ends: bool,
    pub serial: u32,
    pub number: u32,
    pub position: u64,
    /// Whether it has no lacing values.
    pub is_empty: bool,
    /// Whether its last packet goes on after it.
    pub goes_on: bool,
}

/// Whether the lacing values say that their last packet goes on.
fn ends_open(lacing: &[u8]) -> bool
    ensures { result ≡ ends_open lacing.now }
{
    lacing.last() == Some(&FULL_VALUE)
}

/// What the head of a page says, whose lacing values end its bytes.
fn said_by(front: &PageFront) -> Option<Said>
    requires { (27 ≤ front.now.facts.len) × (front.now.facts.len ≤ 282) }
    ensures { (page : Page) → IsFrontOf page front.now → result ≡ Some (said_of page) }
{
    let (head, _) = front.bytes.split_at(front.facts.len);
    match read_header(head) {
        Ok(header) => {
            let (_, lacing) = head.split_at(FIXED_SIZE);
            Some(Said {
                begins: front.facts.begins,
                ends: front.facts.ends,
                serial: front.facts.serial,
                number: front.facts.number,
                position: header.head.position,
                is_empty: header.values == 0,
                goes_on: ends_open(lacing),
            })
        }
        Err(_) => None,
    }
}

/// What the head of a page says that begins the bytes, and the size of the page.
pub fn said_with_size(bytes: &[u8]) -> Option<(Said, usize)>
    ensures { (whole : Page) (rest : List ℕ) → IsPage whole → bytes.now ≡ page_bytes whole ++ rest
        → result ≡ Some (said_of whole, page_size whole) }
{
    match read_header(bytes) {
        Ok(header) => {
            let (head, _) = bytes.split_at(FIXED_SIZE + header.values);
            let (_, lacing) = head.split_at(FIXED_SIZE);
            let said = Said {
                begins: header.head.flags / FIRST % 2 == 1,
                ends: header.head.flags / LAST % 2 == 1,
                serial: header.head.serial,
                number: header.head.sequence,
                position: header.head.position,
                is_empty: header.values == 0,
                goes_on: ends_open(lacing),
            };
            Some((said, FIXED_SIZE + header.values + header.body))
        }
        Err(_) => None,
    }
}

/// What the head of a page says, which is whole.
pub fn said_of(page: &[u8]) -> Option<Said>
    ensures { (whole : Page) → IsPage whole → page.now ≡ page_bytes whole → result ≡ Some (said_of whole) }
{
    match said_with_size(page) {
        Some((said, _)) => Some(said),
        None => None,
    }
}

/// The stream after the page.
fn followed_by(said: &Said, stream: StreamState) -> StreamState
    ensures { result ≡ followed_by said.now stream }
{
    StreamState {
        serial: stream.serial,
        next_sequence: u64::from(said.number) + 1,
        last_position: if said.position < POSITIONS {
            said.position
        } else {
            stream.last_position
        },
        ended: stream.ended || said.ends,
        finished: !(if said.is_empty {
            !stream.finished
        } else {
            said.goes_on
        }),
    }
}

/// The stream of which this is the first page.
fn entered_by(said: &Said) -> StreamState
    ensures { result ≡ entered_by said.now }
{
    let stream = StreamState {
        serial: said.serial,
        finished: true,
        ..StreamState::NOBODY
    };
    followed_by(said, stream)
}

/// The stream after the page, if the page is its own.
fn with_page(said: &Said, stream: StreamState) -> StreamState
    ensures { result ≡ change_at said.now.serial (followed_by said.now) stream }
{
    if stream.serial == said.serial {
        followed_by(said, stream)
    } else {
        stream
    }
}

/// The streams after a page that is no stream's first.
fn go_on(said: &Said, streams: &mut [StreamState])
    ensures { streams.new ≡ continued_by said.now streams.old }
{
    for stream in streams.iter_mut() {
        *stream = with_page(said, *stream);
    }
}

/// The streams of the last link after a stream's first page. If all have ended, the page begins a link.
fn begin(said: &Said, streams: &mut Vec<StreamState>) -> Result<(), CutFault>
    ensures streams { OnOk result (streams.new.items ≡ begun_by said.now streams.old.items) }
    ensures fault { OnErr result (result ≡ Err CutFault.Memory) }
{
    if !is_open(streams.as_slice()) {
        streams.clear();
    }
    match streams.push(entered_by(said)) {
        Ok(()) => Ok(()),
        Err(_) => Err(CutFault::Memory),
    }
}

/// The streams of the last link after a page.
pub fn take_page(said: &Said, streams: &mut Vec<StreamState>) -> Result<(), CutFault>
    ensures streams { OnOk result (streams.new.items ≡ streams_by said.now streams.old.items) }
    ensures fault { OnErr result (result ≡ Err CutFault.Memory) }
{
    if said.begins {
        return begin(said, streams);
    }
    go_on(said, streams.as_mut_slice());
    Ok(())
}

/// What the head of the page at the place says, and the size of the page.
pub fn read_said<S: PageSource>(source: &mut S, place: u64) -> Result<(Said, u64), SourceFault>
    ensures read { (page : Page) → S.is_honest source.old → Stands (drop place (S.bytes source.old)) page
        → IfOk result (λ (said, size). (said ≡ said_of page) × (size ≡ page_size page)) }
    ensures cause { (page : Page) → S.is_honest source.old → Stands (drop place (S.bytes source.old)) page → IsErr result
        → HasFailed (S.failures source.old) (S.failures source.new) }
    ensures inside { IfOk result (λ (said, size). (0 < size) × (place + size < 2 ^ 64)) }
    ensures later { S.failures source.old ≤ S.failures source.new }
    ensures source { KeepsSource S.bytes S.is_honest S.size S.only_reads source.old source.new }
{
    match read_front(source, place) {
        Ok(front) => match said_by(&front) {
            Some(said) => Ok((said, front.facts.size)),
            None => Err(SourceFault),
        },
        Err(fault) => Err(fault),
    }
}

/// Goes over the pages between two places, of which the heads are read. The streams are those of the last link.
pub fn take_pages<S: PageSource>(
    source: &mut S,
    start: u64,
    end: u64,
    streams: &mut Vec<StreamState>,
) -> Result<(), CutFault>
    ensures taken { (pages : List Page) → S.is_honest source.old → StandUpTo (S.bytes source.old) start end pages
        → OnOk result (streams.new.items ≡ streams_after streams.old.items pages) }
    ensures cause { (pages : List Page) → S.is_honest source.old → StandUpTo (S.bytes source.old) start end pages
        → result ≡ Err CutFault.Source → HasFailed (S.failures source.old) (S.failures source.new) }
    ensures number { result ≢ Err CutFault.NoNumber }
    ensures later { S.failures source.old ≤ S.failures source.new }
    ensures source { KeepsSource S.bytes S.is_honest S.size S.only_reads source.old source.new }
{
    let mut place = start;
    'pages: while place < end {
        match read_said(source, place) {
            Ok((said, size)) => match take_page(&said, streams) {
                Ok(()) => place += size,
                Err(fault) => return Err(fault),
            },
            Err(_) => return Err(CutFault::Source),
        }
    }
    Ok(())
}

/// Goes over the pages between two places up to the next that is a stream's first, of which the heads are read, and
/// returns where that stands, or the end. The streams are those of the last link.
pub fn take_link<S: PageSource>(
    source: &mut S,
    start: u64,
    end: u64,
    streams: &mut Vec<StreamState>,
) -> Result<u64, CutFault>
    ensures found { (pages : List Page) → S.is_honest source.old → StandUpTo (S.bytes source.old) start end pages
        → IfOk result (λ place. place ≡ start + length (bytes_of_pages (up_to_first pages))) }
    ensures taken { IfOk result (λ place. (own : List Page) → S.is_honest source.old
        → StandUpTo (S.bytes source.old) start place own → streams.new.items ≡ streams_after streams.old.items own) }
    ensures cause { (pages : List Page) → S.is_honest source.old → StandUpTo (S.bytes source.old) start end pages
        → result ≡ Err CutFault.Source → HasFailed (S.failures source.old) (S.failures source.new) }
    ensures number { result ≢ Err CutFault.NoNumber }
    ensures later { S.failures source.old ≤ S.failures source.new }
    ensures source { KeepsSource S.bytes S.is_honest S.size S.only_reads source.old source.new }
{
    let mut place = start;
    'pages: while place < end {
        match read_said(source, place) {
            Ok((said, size)) => {
                if said.begins {
                    return Ok(place);
                }
                match take_page(&said, streams) {
                    Ok(()) => place += size,
                    Err(fault) => return Err(fault),
                }
            }
            Err(_) => return Err(CutFault::Source),
        }
    }
    Ok(place)
}
