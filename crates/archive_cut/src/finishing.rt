//! Cuts in which players find each stream's end on a page with a packet.
ghost use Rattle.std.specs.Prelude.{◌≡◌, IsSome, OnOk, Some, false};
ghost use Rattle.ogg_finish.specs.Finishing.{finished_page, is_full, kept_at, mark_after, marked_last};
ghost use Rattle.ogg_page.specs.LogicalStream.{is_first, is_last};
ghost use Rattle.ogg_page.specs.Page.{Page, IsPage, page_bytes};
ghost use Rattle.archive_cut.specs.Heads.{said_of};
ghost use Rattle.archive_cut.specs.Ways.{pages_by, plain};

use crate::heads::Said;
use ogg_page::{LAST, Memory, Page as PageRead, PageBuffer, PageFault, PageHead, read_page};
use std::alloc::Global;

/// The page that is to be marked as its stream's last.
#[derive(Clone, Copy, Debug, PartialEq, Eq)]
pub struct Mark {
    /// The page's number within its stream.
    pub sequence: u32,
    /// The page's position.
    pub position: u64,
    /// How many bytes the pages after it have.
    pub behind: u64,
}

/// What is known of a stream by some of its pages.
#[derive(Clone, Copy, Debug, PartialEq, Eq)]
struct StreamEnd {
    link: u64,
    serial: u32,
    ended: bool,
    mark: Option<Mark>,
}

/// What the pages of a cut say of its links, and of the ends of their streams.
#[derive(Debug, Drop)]
pub struct StreamEnds {
    streams: Vec<StreamEnd>,
    links: u64,
    bytes: u64,
}

/// What is done with a page of a finished cut.
#[derive(Clone, Copy, Debug, PartialEq, Eq)]
pub enum Way {
    /// It stays as it is.
    Stays,
    /// It is marked as its stream's last.
    Marked,
    /// It is left out.
    Goes,
}

/// Whether the page can carry the mark.
fn is_full(said: &Said) -> bool
    ensures { (page : Page) → said.now ≡ said_of page → result ≡ is_full page }
{
    !said.is_empty && !said.begins
}

/// Where the mark is to stand after the page.
fn mark_after(found: Option<Mark>, said: &Said, size: u64) -> Option<Mark>
    ensures { (page : Page) → said.now ≡ said_of page → plain result ≡ mark_after (plain found) page }
{
    if is_full(said) {
        return Some(Mark {
            sequence: said.number,
            position: said.position,
            behind: 0,
        });
    }
    match found {
        Some(mark) => kept_at(mark, said, size),
        None => None,
    }
}

/// The same mark, unless the later page, which can't carry it, has another position.
fn kept_at(mark: Mark, said: &Said, size: u64) -> Option<Mark>
    ensures { (page : Page) → said.now ≡ said_of page → plain result ≡ kept_at page (plain (Some mark)) }
{
    if said.position == mark.position || said.position == u64::MAX {
        Some(Mark {
            behind: mark.behind.saturating_add(size),
            ..mark
        })
    } else {
        None
    }
}

/// What is known of the stream after the page, if it is one of its own.
fn after_page(end: StreamEnd, link: u64, said: &Said, size: u64) -> StreamEnd {
    if end.link != link || end.serial != said.serial {
        return end;
    }
    StreamEnd {
        ended: end.ended || said.ends,
        mark: mark_after(end.mark, said, size),
        ..end
    }
}

/// Notes a page of the stream that it belongs to.
fn note(streams: &mut [StreamEnd], link: u64, said: &Said, size: u64) {
    for end in streams.iter_mut() {
        *end = after_page(*end, link, said, size);
    }
}

fn push(streams: &mut Vec<StreamEnd>, end: StreamEnd) -> Result<(), Memory> {
    match streams.push(end) {
        Ok(()) => Ok(()),
        Err(_) => Err(Memory),
    }
}

/// Whether a stream of the link hasn't ended.
fn is_open(streams: &[StreamEnd], link: u64) -> bool {
    streams.iter().any(|end| end.link == link && !end.ended)
}

/// What is known of the stream of the link.
fn end_in(streams: &[StreamEnd], link: u64, serial: u32) -> Option<StreamEnd> {
    streams
        .iter()
        .copied()
        .find(|end| end.link == link && end.serial == serial)
}

impl StreamEnds {
    /// Nothing is known yet.
    pub fn new(alloc: Global) -> StreamEnds {
        StreamEnds {
            streams: Vec::new(alloc),
            links: 0,
            bytes: 0,
        }
    }

    /// How many links there are.
    pub fn links(&self) -> u64 {
        self.links
    }

    /// How many bytes there are, as they are or finished.
    pub fn bytes(&self, raw: bool) -> u64 {
        if raw {
            self.bytes
        } else {
            self.bytes.saturating_sub(behind(self.streams.as_slice()))
        }
    }

    /// Notes a page more, of this size, by what its head says.
    pub fn note(&mut self, said: &Said, size: u64) -> Result<(), Memory> {
        self.bytes = self.bytes.saturating_add(size);
        if said.begins {
            if !is_open(self.streams.as_slice(), self.links) {
                self.links = self.links.saturating_add(1);
            }
            push(
                &mut self.streams,
                StreamEnd {
                    link: self.links,
                    serial: said.serial,
                    ended: said.ends,
                    mark: None,
                },
            )
        } else {
            note(self.streams.as_mut_slice(), self.links, said, size);
            Ok(())
        }
    }

    /// What becomes of a page of the link with this number, the first of which is 1, by what its head says.
    pub fn way(&self, link: u64, said: &Said) -> Way {
        if said.begins {
            return Way::Stays;
        }
        match end_in(self.streams.as_slice(), link, said.serial) {
            Some(
                StreamEnd {
                    ended: true,
                    mark: Some(mark),
                    ..
                },
            ) => way_by(mark, said),
            _ => Way::Stays,
        }
    }
}

/// What becomes of a page that isn't its stream's first.
fn way_by(mark: Mark, said: &Said) -> Way
    ensures { (page : Page) → said.now ≡ said_of page → is_first page ≡ false
        → pages_by result page ≡ finished_page (plain (Some mark)) page }
{
    if said.number < mark.sequence {
        Way::Stays
    } else if said.number == mark.sequence {
        if said.ends { Way::Stays } else { Way::Marked }
    } else {
        Way::Goes
    }
}

/// How many bytes the pages have that are left out.
fn behind(streams: &[StreamEnd]) -> u64 {
    let mut sum: u64 = 0;
    for end in streams {
        if let Some(mark) = end.mark {
            sum = sum.saturating_add(mark.behind);
        }
    }
    sum
}

/// Makes the page in the buffer, with the mark of the last page, which it lacks. It is none if no page stands there.
pub fn mark_last(page: &[u8], buffer: &mut PageBuffer) -> Result<(), PageFault>
    ensures made { OnOk result ((whole : Page) → IsPage whole → page.now ≡ page_bytes whole
        → buffer.new.finished ≡ Some (marked_last whole)) }
    ensures some { OnOk result (IsSome buffer.new.finished) }
{
    match read_page(page) {
        Ok(page) => if page.is_last() {
            Err(PageFault::Pattern)
        } else {
            make_marked(&page, buffer);
            Ok(())
        },
        Err(fault) => Err(fault),
    }
}

fn make_marked(page: &PageRead<'_>, buffer: &mut PageBuffer)
    requires { is_last page.now ≡ false }
    ensures { buffer.new.finished ≡ Some (marked_last page.now) }
{
    // Since it is a page, its lacing values, its body and its flags are bounded.
    // For the proof alone.
    let _whole = page.whole();
    buffer.start(page.lacing());
    buffer.put(page.body());
    buffer.finish(&PageHead {
        flags: page.flags() + LAST,
        position: page.position(),
        serial: page.serial(),
        sequence: page.sequence(),
    });
}
