//! Where the link that is open at the end of a file goes on in the next one.
ghost use Rattle.std.specs.Prelude.{◌≡◌, ◌+◌, ◌-◌, ◌*◌, ◌≤◌, ℕ, List, length, drop, false, IfOk, IfSome};
ghost use Rattle.ogg_page.specs.Page.{Page as PageOf};
ghost use Rattle.ogg_page.specs.Window.{KeepsSource};
ghost use Rattle.archive_cut.specs.Cut.{end_of};
ghost use Rattle.archive_cut.specs.Heads.{StandUpTo};
ghost use Rattle.archive_fetch.specs.Meetings.{BeginIn, EndIn, Meets, StandIn};

use crate::heads::Memory;
use archive_cut::{CutFault, take_pages};
use link_chain::StreamState;
use ogg_page::{FIXED_SIZE, LAST, Page, PageSource, SourceFault, split_page};
use page_heads::{PageFront, read_front};
use serve_live::open_streams;
use std::alloc::Global;

/// Where the link that is open at the end of a file goes on in the next one.
#[derive(Drop)]
pub struct Meeting {
    /// Where the pages begin with which it is ended in the file before.
    pub end: u64,
    /// The streams that these pages end, in order.
    pub ended: Vec<StreamState>,
    /// Those that go on with them in the next file, in order, as the pages leave them with which the link begins there.
    pub begun: Vec<StreamState>,
    /// Where these pages end.
    pub begun_end: u64,
}

/// The stream that the page ends, if it holds no packets and does nothing else.
fn ended_by(page: &Page<'_>) -> Option<StreamState>
    ensures { IfSome result (λ stream. (page.now ≡ end_of stream) × (stream.ended ≡ false)) }
{
    let _whole = page.whole();
    if page.flags() == LAST && page.lacing().is_empty() {
        Some(StreamState {
            serial: page.serial(),
            next_sequence: u64::from(page.sequence()),
            last_position: page.position(),
            ended: false,
            finished: true,
        })
    } else {
        None
    }
}

/// The streams that these bytes end, if they are pages that hold no packets and do nothing else.
fn ended_in(alloc: Global, bytes: &[u8]) -> Result<Option<Vec<StreamState>>, Memory>
    ensures { IfOk result (λ found. IfSome found (λ streams. EndIn bytes.now 0 streams.items)) }
{
    let mut ended = Vec::new(alloc);
    let mut rest = bytes;
    'pages: while !rest.is_empty() {
        match split_page(rest) {
            Ok((page, after)) => match ended_by(&page) {
                Some(stream) => {
                    ended.push(stream)?;
                    rest = after;
                }
                None => return Ok(None),
            },
            Err(_) => return Ok(None),
        }
    }
    Ok(Some(ended))
}

/// How many bytes the pages have that end so many streams, and the page before them, if that has no packets.
fn size_of_ends(count: usize) -> Option<usize>
    ensures { IfSome result (λ size. size ≡ 27 + 27 * count) }
{
    count.checked_add(1)?.checked_mul(FIXED_SIZE)
}

/// Where the pages begin that end so many streams, and end here.
fn before_ends(end: u64, count: usize) -> u64
    ensures { result ≡ end - 27 * count }
{
    end.saturating_sub((FIXED_SIZE as u64).saturating_mul(count as u64))
}

/// The last bytes of the source: so many.
fn last_bytes<S: PageSource>(
    alloc: Global,
    source: &mut S,
    count: usize,
) -> Result<Vec<u8>, CutFault>
    ensures read { IfOk result (λ bytes. S.is_honest source.old
        → (bytes.items ≡ drop (length (S.bytes source.old) - count) (S.bytes source.old)) × (count ≤ length (S.bytes source.old))) }
    ensures so_many { IfOk result (λ bytes. length bytes.items ≡ count) }
    ensures source { KeepsSource S.bytes S.is_honest S.size S.only_reads source.old source.new }
{
    let Some(place) = source.end().checked_sub(count as u64) else {
        return Err(CutFault::Source);
    };
    let mut bytes = Vec::new(alloc);
    let Ok(()) = bytes.resize(count, 0) else {
        return Err(CutFault::Memory);
    };
    match source.read_at(place, bytes.as_mut_slice()) {
        Ok(()) => Ok(bytes),
        Err(_) => Err(CutFault::Source),
    }
}

/// Whether these bytes are a page that holds no packets and does nothing but end its stream.
fn is_end(bytes: &[u8]) -> bool {
    match split_page(bytes) {
        Ok((page, _)) => ended_by(&page).is_some(),
        Err(_) => false,
    }
}

/// The streams that the last pages of the source end, so many. There are none if other pages stand there, or if the page
/// before them ends one more.
fn open_at_end<S: PageSource>(
    alloc: Global,
    source: &mut S,
    count: usize,
) -> Result<Option<Vec<StreamState>>, CutFault>
    ensures ended { IfOk result (λ found. IfSome found (λ streams. S.is_honest source.old
        → EndIn (S.bytes source.old) (S.size source.old - 27 * count) streams.items)) }
    ensures as_many { IfOk result (λ found. IfSome found (λ streams. length streams.items ≡ count)) }
    ensures source { KeepsSource S.bytes S.is_honest S.size S.only_reads source.old source.new }
{
    let Some(size) = size_of_ends(count) else {
        return Ok(None);
    };
    match last_bytes(alloc, source, size) {
        Ok(bytes) => {
            let (before, ends) = bytes.as_slice().split_at(FIXED_SIZE);
            match ended_in(alloc, ends) {
                Ok(Some(ended)) if ended.len() == count && !is_end(before) => Ok(Some(ended)),
                Ok(_) => Ok(None),
                Err(_) => Err(CutFault::Memory),
            }
        }
        Err(fault) => Err(fault),
    }
}

/// Whether the page holds no packets and ends its stream.
fn ends_alone(front: &PageFront) -> bool {
    front.facts.ends && front.facts.size == FIXED_SIZE as u64
}

/// Where the pages end with which a file begins: those up to this place, and pages after it that hold no packets and end
/// streams. There is none if this place is within a page.
fn begun_end<S: PageSource>(source: &mut S, begun: u64) -> Result<Option<u64>, SourceFault>
    ensures found { (pages : List PageOf) → S.is_honest source.old → StandUpTo (S.bytes source.old) 0 (S.size source.old) pages
        → IfOk result (λ found. IfSome found (λ place. StandIn (S.bytes source.old) place pages)) }
    ensures source { KeepsSource S.bytes S.is_honest S.size S.only_reads source.old source.new }
{
    let end = source.end();
    let mut place = 0;
    'pages: while place < end {
        match read_front(source, place) {
            Ok(front) => {
                let behind = place + front.facts.size;
                if begun <= place && !ends_alone(&front) {
                    return Ok(Some(place));
                }
                if place < begun && begun < behind {
                    return Ok(None);
                }
                place = behind;
            }
            Err(fault) => return Err(fault),
        }
    }
    Ok(if begun <= place { Some(place) } else { None })
}

/// The streams that are open where the pages end with which a file begins, and where that is. There are none if this place
/// is within a page.
fn begun_in<S: PageSource>(
    alloc: Global,
    source: &mut S,
    begun: u64,
) -> Result<Option<(u64, Vec<StreamState>)>, CutFault>
    ensures begun { (pages : List PageOf) → S.is_honest source.old → StandUpTo (S.bytes source.old) 0 (S.size source.old) pages
        → IfOk result (λ found. IfSome found (λ (place, streams). BeginIn pages place streams.items)) }
    ensures source { KeepsSource S.bytes S.is_honest S.size S.only_reads source.old source.new }
{
    match begun_end(source, begun) {
        Ok(Some(place)) => {
            let mut streams = Vec::new(alloc);
            match take_pages(source, 0, place, &mut streams) {
                Ok(()) => match open_streams(alloc, streams.as_slice()) {
                    Ok(open) => Ok(Some((place, open))),
                    Err(_) => Err(CutFault::Memory),
                },
                Err(fault) => Err(fault),
            }
        }
        Ok(None) => Ok(None),
        Err(_) => Err(CutFault::Source),
    }
}

impl Meeting {
    /// Where the link that is open at the end of a file goes on in the next one, if it does: the file before ends with
    /// pages that end as many streams as are open where the next one goes on, and no more. `old` are the pages of the file
    /// before, and `new` those of the next one, whose first link begins as told. Heads of its beginning are read, and the
    /// pages that end streams.
    pub fn of<S: PageSource, T: PageSource>(
        alloc: Global,
        old: &mut S,
        new: &mut T,
        begun: u64,
    ) -> Result<Option<Meeting>, CutFault>
        ensures meets { (news : List PageOf) → S.is_honest old.old → T.is_honest new.old → StandUpTo (T.bytes new.old) 0 (T.size new.old) news
            → IfOk result (λ found. IfSome found (λ meeting. Meets (S.bytes old.old) news meeting)) }
        ensures old { KeepsSource S.bytes S.is_honest S.size S.only_reads old.old old.new }
        ensures new { KeepsSource T.bytes T.is_honest T.size T.only_reads new.old new.new }
    {
        let old_end = old.end();
        match begun_in(alloc, new, begun) {
            Ok(Some((begun_end, begun))) => match open_at_end(alloc, old, begun.len()) {
                Ok(Some(ended)) if !ended.is_empty() => Ok(Some(Meeting {
                    end: before_ends(old_end, ended.len()),
                    ended,
                    begun,
                    begun_end,
                })),
                Ok(_) => Ok(None),
                Err(fault) => Err(fault),
            },
            Ok(None) => Ok(None),
            Err(fault) => Err(fault),
        }
    }
}
