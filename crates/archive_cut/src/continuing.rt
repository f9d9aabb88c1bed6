//! A file that goes on with the link of the file before.
ghost use Rattle.std.specs.Prelude.{◌≡◌, ◌≤◌, ◌+◌, ◌-◌, ◌^◌, ◌<◌, ◌++◌, if◌then◌else◌, ℕ, List, [], IfOk, OnOk, IfSome, MatchOption, true, length, take, drop};
ghost use Rattle.ogg_page.specs.Head.{Stands};
ghost use Rattle.ogg_page.specs.Page.{Page, IsPage, bytes_of_pages, page_bytes, page_size};
ghost use Rattle.ogg_page.specs.Window.{KeepsSource};
ghost use Rattle.serve_live.specs.Following.{open_streams};
ghost use Rattle.serve_live.specs.Heard.{named_page};
ghost use Rattle.serve_live.specs.Names.{name_in};
ghost use Rattle.serve_live.specs.Renaming.{back_of};
ghost use Rattle.archive_cut.specs.Continuing.{IsMeeting, StandsIn, firsts_of, is_begun_as, name_on, names_on};
ghost use Rattle.archive_cut.specs.Cut.{ends_of};
ghost use Rattle.archive_cut.specs.Heads.{StandUpTo, said_of, streams_after};

use crate::endings::ends_of;
use crate::fault::CutFault;
use crate::heads::{Said, read_said, take_page, take_pages};
use crate::retelling::retell;
use archive_times::Join;
use link_chain::StreamState;
use ogg_page::{Memory, PageSource};
use page_heads::read_front;
use serve_live::{Listener, StreamName, name_in};
use std::alloc::Global;

/// Where a page's lacing values are counted.
const VALUES: u64 = 26;

/// The size of a page without packets.
const EMPTY: u64 = 27;

/// Where two files meet that go on with one another.
#[derive(Clone, Copy, Debug, PartialEq, Eq)]
pub struct Meeting {
    /// Where the pages of the file before end, without those that end what was open.
    pub end: u64,
    /// Where the pages of the file begin that go on.
    pub begun: u64,
    /// The highest number that follows in the file before.
    pub number: u64,
}

/// A stream of a Begin, which goes on with a stream of the link.
fn name_on(begun: &StreamState, first: &StreamState) -> StreamName
    ensures { result ≡ name_on begun.now first.now }
{
    StreamName {
        serial: begun.serial,
        name: first.serial,
        less: begun.next_sequence,
        more: first.next_sequence,
    }
}

/// The streams of a Begin, which go on with those of the link, in order.
pub fn names_on(
    alloc: Global,
    begun: &[StreamState],
    first: &[StreamState],
) -> Result<Vec<StreamName>, Memory>
    ensures { IfOk result (λ names. names.items ≡ names_on begun.now first.now) }
{
    begun
        .iter()
        .zip(first)
        .map(|(begun, first)| name_on(begun, first))
        .collect(alloc)
}

/// The number of a page in the link. There is none if it would be too high.
fn number_on(stream: StreamName, number: u32) -> Option<u32>
    ensures { MatchOption result (2 ^ 32 ≤ stream.more + (number - stream.less)) (λ found. found ≡ stream.more + (number - stream.less)) }
{
    let rest = u64::from(number).saturating_sub(stream.less);
    match rest.checked_add(stream.more) {
        Some(number) => u32::try_from(number).ok(),
        None => None,
    }
}

/// What the head of a page of the file says in the link. It is none if the page's number would be too high.
pub fn name_said(names: &[StreamName], said: Said) -> Option<Said>
    ensures { IfSome result (λ found. (page : Page) → said ≡ said_of page → found ≡ said_of (named_page (name_in names.now) page)) }
{
    let stream = name_in(names, said.serial);
    match number_on(stream, said.number) {
        Some(number) => Some(Said {
            serial: stream.name,
            number,
            ..said
        }),
        None => None,
    }
}

/// Changes a page of the file, of which this is said, into that of the link, and returns what is said of it there. It is
/// none if its number would be too high.
pub fn name_page(names: &[StreamName], said: Said, page: &mut [u8]) -> Option<Said>
    ensures { IfSome result (λ found. (whole : Page) → IsPage whole → page.old ≡ page_bytes whole → said ≡ said_of whole
        → (page.new ≡ page_bytes (named_page (name_in names.now) whole)) × (found ≡ said_of (named_page (name_in names.now) whole))) }
{
    match name_said(names, said) {
        Some(found) => {
            if found.serial != said.serial || found.number != said.number {
                retell(page, found.serial, found.number);
            }
            Some(found)
        }
        None => None,
    }
}

/// Where the pages end from a place on that hold no packets and end streams.
fn behind_ends<S: PageSource>(source: &mut S, from: u64, end: u64) -> Result<u64, CutFault>
    ensures source { KeepsSource S.bytes S.is_honest S.size S.only_reads source.old source.new }
{
    let mut place = from;
    'pages: while place < end {
        match read_said(source, place) {
            Ok((said, size)) => {
                if !said.is_empty || !said.ends {
                    return Ok(place);
                }
                place += size;
            }
            Err(_) => return Err(CutFault::Source),
        }
    }
    Ok(place)
}

/// The streams of the last link after the pages between two places, of which the heads are read. There are none if no
/// page ends at the second place.
fn streams_at<S: PageSource>(
    alloc: Global,
    source: &mut S,
    begin: u64,
    place: u64,
) -> Result<Option<Vec<StreamState>>, CutFault>
    ensures found { (end : ℕ) (pages : List Page) → S.is_honest source.old → StandUpTo (S.bytes source.old) begin end pages
        → place ≤ end → IfOk result (λ found. IfSome found (λ streams. StandsIn begin place pages streams.items)) }
    ensures source { KeepsSource S.bytes S.is_honest S.size S.only_reads source.old source.new }
{
    let mut streams = Vec::new(alloc);
    let mut at = begin;
    'pages: while at < place {
        match read_said(source, at) {
            Ok((said, size)) => match take_page(&said, &mut streams) {
                Ok(()) => at += size,
                Err(fault) => return Err(fault),
            },
            Err(_) => return Err(CutFault::Source),
        }
    }
    if at == place {
        Ok(Some(streams))
    } else {
        Ok(None)
    }
}

/// The bytes between two places.
fn bytes_at<S: PageSource>(
    alloc: Global,
    source: &mut S,
    place: u64,
    end: u64,
) -> Result<Vec<u8>, CutFault>
    ensures read { IfOk result (λ bytes. S.is_honest source.old → bytes.items ≡ take (end - place) (drop place (S.bytes source.old))) }
    ensures source { KeepsSource S.bytes S.is_honest S.size S.only_reads source.old source.new }
{
    if end > source.end() || place > end {
        return Err(CutFault::Source);
    }
    let Ok(count) = usize::try_from(end - place) else {
        return Err(CutFault::Memory);
    };
    let mut bytes = Vec::new(alloc);
    let Ok(()) = bytes.resize(count, 0) else {
        return Err(CutFault::Memory);
    };
    match source.read_at(place, bytes.as_mut_slice()) {
        Ok(()) => Ok(bytes),
        Err(_) => Err(CutFault::Source),
    }
}

/// Whether exactly the pages stand between two places that end the streams.
fn stands_ended<S: PageSource>(
    alloc: Global,
    source: &mut S,
    place: u64,
    end: u64,
    streams: &[StreamState],
) -> Result<bool, CutFault>
    ensures ended { IfOk result (λ ended. ended ≡ true → S.is_honest source.old
        → take (end - place) (drop place (S.bytes source.old)) ≡ bytes_of_pages (ends_of streams.now)) }
    ensures source { KeepsSource S.bytes S.is_honest S.size S.only_reads source.old source.new }
{
    let nobody = Listener::wait(alloc, place);
    match ends_of(alloc, &nobody, false, streams) {
        Ok(ends) => match bytes_at(alloc, source, place, end) {
            Ok(bytes) => Ok(bytes.as_slice() == ends.as_slice()),
            Err(fault) => Err(fault),
        },
        Err(fault) => Err(fault),
    }
}

/// Appends what the page at the place holds, its lacing values and its body, unless its stream has ended.
fn add_first<S: PageSource>(
    alloc: Global,
    source: &mut S,
    place: u64,
    size: u64,
    ended: bool,
    found: &mut Vec<u8>,
) -> Result<(), CutFault>
    requires { place + size < 2 ^ 64 }
    ensures added { (page : Page) → S.is_honest source.old → Stands (drop place (S.bytes source.old)) page → size ≡ page_size page
        → OnOk result (found.new.items ≡ found.old.items ++ (if ended then [] else back_of page)) }
    ensures source { KeepsSource S.bytes S.is_honest S.size S.only_reads source.old source.new }
{
    if ended {
        return Ok(());
    }
    if size < VALUES {
        return Err(CutFault::Source);
    }
    match bytes_at(alloc, source, place + VALUES, place + size) {
        Ok(bytes) => match found.extend_from_slice(bytes.as_slice()) {
            Ok(()) => Ok(()),
            Err(_) => Err(CutFault::Memory),
        },
        Err(fault) => Err(fault),
    }
}

/// What the first pages of the streams hold that haven't ended, from the place on where the first of them begins. There
/// is none if other pages stand there.
fn firsts_of<S: PageSource>(
    alloc: Global,
    source: &mut S,
    begin: u64,
    end: u64,
    streams: &[StreamState],
) -> Result<Option<Vec<u8>>, CutFault>
    ensures found { (pages : List Page) → S.is_honest source.old → StandUpTo (S.bytes source.old) begin end pages
        → IfOk result (λ found. IfSome found (λ text. text.items ≡ firsts_of streams.now pages)) }
    ensures source { KeepsSource S.bytes S.is_honest S.size S.only_reads source.old source.new }
{
    let mut found = Vec::new(alloc);
    let mut place = begin;
    for stream in streams {
        if place >= end {
            return Ok(None);
        }
        match read_front(source, place) {
            Ok(front) => {
                let size = front.facts.size;
                if !front.facts.begins || front.facts.serial != stream.serial {
                    return Ok(None);
                }
                match add_first(alloc, source, place, size, stream.ended, &mut found) {
                    Ok(()) => place += size,
                    Err(fault) => return Err(fault),
                }
            }
            Err(_) => return Err(CutFault::Source),
        }
    }
    Ok(Some(found))
}

/// Whether the streams that haven't ended are as many, and began with the same.
fn begin_alike<S: PageSource, T: PageSource>(
    alloc: Global,
    old: &mut S,
    begin: u64,
    old_end: u64,
    first: &[StreamState],
    new: &mut T,
    new_end: u64,
    begun: &[StreamState],
) -> Result<bool, CutFault>
    ensures alike { (olds news : List Page) → S.is_honest old.old → T.is_honest new.old
        → StandUpTo (S.bytes old.old) begin old_end olds → StandUpTo (T.bytes new.old) 0 new_end news
        → IfOk result (λ alike. alike ≡ true → is_begun_as first.now olds begun.now news) }
    ensures old { KeepsSource S.bytes S.is_honest S.size S.only_reads old.old old.new }
    ensures new { KeepsSource T.bytes T.is_honest T.size T.only_reads new.old new.new }
{
    match firsts_of(alloc, old, begin, old_end, first) {
        Ok(Some(olds)) => match firsts_of(alloc, new, 0, new_end, begun) {
            Ok(Some(news)) => Ok(olds.as_slice() == news.as_slice()),
            Ok(None) => Ok(false),
            Err(fault) => Err(fault),
        },
        Ok(None) => Ok(false),
        Err(fault) => Err(fault),
    }
}

/// How many streams haven't ended.
fn count_open(streams: &[StreamState]) -> usize
    ensures { result ≡ length (open_streams streams.now) }
{
    streams.iter().filter(|stream| !stream.ended).count()
}

/// The highest number that follows in a stream.
fn next_number(streams: &[StreamState]) -> u64 {
    let mut number = 0;
    for stream in streams {
        number = stream.next_sequence.max(number);
    }
    number
}

/// Where the end pages of this many streams begin, which end here.
fn before_ends(end: u64, count: usize) -> Option<u64>
    ensures { IfSome result (λ place. place ≤ end) }
{
    end.checked_sub(EMPTY.checked_mul(count as u64)?)
}

/// Whether the file before ends with the pages that end these streams, which are as many as go on in the next file, and
/// began with the same.
fn meets<S: PageSource, T: PageSource>(
    alloc: Global,
    old: &mut S,
    link: Join,
    ends: (u64, u64),
    first: &[StreamState],
    new: &mut T,
    new_end: u64,
    begun: &[StreamState],
) -> Result<bool, CutFault>
    ensures meets { (olds news : List Page) → S.is_honest old.old → T.is_honest new.old
        → StandUpTo (S.bytes old.old) link.begin ends.1 olds → StandUpTo (T.bytes new.old) 0 new_end news
        → IfOk result (λ meets. meets ≡ true → (length (open_streams first.now) ≡ length (open_streams begun.now))
        × (take (ends.1 - ends.0) (drop ends.0 (S.bytes old.old)) ≡ bytes_of_pages (ends_of first.now))
        × is_begun_as first.now olds begun.now news) }
    ensures old { KeepsSource S.bytes S.is_honest S.size S.only_reads old.old old.new }
    ensures new { KeepsSource T.bytes T.is_honest T.size T.only_reads new.old new.new }
{
    if count_open(first) != count_open(begun) {
        return Ok(false);
    }
    match stands_ended(alloc, old, ends.0, ends.1, first) {
        Ok(true) => match begin_alike(alloc, old, link.begin, ends.1, first, new, new_end, begun) {
            Ok(alike) => Ok(alike),
            Err(fault) => Err(fault),
        },
        Ok(false) => Ok(false),
        Err(fault) => Err(fault),
    }
}

/// Where two files meet, if the first link of the next one goes on with the last of the one before.
///
/// `old` is the file before, of which the committed bytes end at `old_end`, and `link` where its last link began, as its
/// lines say. `new` is the next file, up to `new_end`, and `begun` where its first link's Begin ends, as its lines say.
/// They meet if the file before ends with the pages that end what is open there, as many streams as go on in the next
/// file, and if these streams began with the same packets, in the same order. A stream that has ended with the Begin, or
/// by the pages after it, goes on with none.
pub fn meeting_of<S: PageSource, T: PageSource>(
    alloc: Global,
    old: &mut S,
    link: Join,
    old_end: u64,
    new: &mut T,
    begun: u64,
    new_end: u64,
) -> Result<Option<Meeting>, CutFault>
    ensures meets { (olds news : List Page) → S.is_honest old.old → T.is_honest new.old
        → StandUpTo (S.bytes old.old) link.begin old_end olds → StandUpTo (T.bytes new.old) 0 new_end news
        → IfOk result (λ found. IfSome found (λ meeting. IsMeeting (S.bytes old.old) link.begin old_end olds news meeting)) }
    ensures old { KeepsSource S.bytes S.is_honest S.size S.only_reads old.old old.new }
    ensures new { KeepsSource T.bytes T.is_honest T.size T.only_reads new.old new.new }
{
    match begin_at(alloc, new, begun, new_end) {
        Ok(Some((begun, news))) => match before_ends(old_end, count_open(news.as_slice())) {
            Some(end) => if link.begun <= end && end < old_end {
                meeting_at(
                    alloc,
                    old,
                    link,
                    end,
                    old_end,
                    new,
                    begun,
                    new_end,
                    news.as_slice(),
                )
            } else {
                Ok(None)
            },
            None => Ok(None),
        },
        Ok(None) => Ok(None),
        Err(fault) => Err(fault),
    }
}

/// Where the pages of a file's Begin end, and those that directly end some of its streams, and which streams it has then.
fn begin_at<T: PageSource>(
    alloc: Global,
    new: &mut T,
    begun: u64,
    new_end: u64,
) -> Result<Option<(u64, Vec<StreamState>)>, CutFault>
    ensures begins { (news : List Page) → T.is_honest new.old → StandUpTo (T.bytes new.old) 0 new_end news
        → IfOk result (λ found. IfSome found (λ (place, streams). StandsIn 0 place news streams.items)) }
    ensures new { KeepsSource T.bytes T.is_honest T.size T.only_reads new.old new.new }
{
    match behind_ends(new, begun, new_end) {
        Ok(begun) => if begun <= new_end {
            match streams_at(alloc, new, 0, begun) {
                Ok(Some(streams)) => Ok(Some((begun, streams))),
                Ok(None) => Ok(None),
                Err(fault) => Err(fault),
            }
        } else {
            Ok(None)
        },
        Err(fault) => Err(fault),
    }
}

/// The meeting of two files, if they meet where these pages of the one before end.
fn meeting_at<S: PageSource, T: PageSource>(
    alloc: Global,
    old: &mut S,
    link: Join,
    end: u64,
    old_end: u64,
    new: &mut T,
    begun: u64,
    new_end: u64,
    news: &[StreamState],
) -> Result<Option<Meeting>, CutFault>
    requires { end ≤ old_end }
    ensures meets { (olds pages : List Page) → S.is_honest old.old → T.is_honest new.old
        → StandUpTo (S.bytes old.old) link.begin old_end olds → StandUpTo (T.bytes new.old) 0 new_end pages
        → StandsIn 0 begun pages news.now
        → IfOk result (λ found. IfSome found (λ meeting. IsMeeting (S.bytes old.old) link.begin old_end olds pages meeting)) }
    ensures old { KeepsSource S.bytes S.is_honest S.size S.only_reads old.old old.new }
    ensures new { KeepsSource T.bytes T.is_honest T.size T.only_reads new.old new.new }
{
    match streams_at(alloc, old, link.begin, end) {
        Ok(Some(first)) => {
            let first = first.as_slice();
            match meets(alloc, old, link, (end, old_end), first, new, new_end, news) {
                Ok(true) => Ok(Some(Meeting {
                    end,
                    begun,
                    number: next_number(first),
                })),
                Ok(false) => Ok(None),
                Err(fault) => Err(fault),
            }
        }
        Ok(None) => Ok(None),
        Err(fault) => Err(fault),
    }
}
